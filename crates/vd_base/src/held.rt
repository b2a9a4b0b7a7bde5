ghost use Rattle.std.specs.Prelude.{◌≡◌};

use std::marker::Model;

/// A value in a holder that contracts see through, so that letting go of it is one call. Where an owned tree or type is alive at a `?`, a `return` or a
/// branch, each such exit writes out the drop of each of its parts; of what is held it writes out one call.
pub struct Held<T> {
    inner: T,
}

impl<T> Model for Held<T> {
    ghost Value = { T };

    ghost coded = { T.code };

    ghost view = { λ it. it.inner };
}

impl<T: Drop> Drop for Held<T> {
    fn drop(self) {
        let Held { inner: _ } = self;
    }
}

impl<T> Held<T> {
    /// The value, for reading.
    pub fn get(&self) -> &T
        ensures { result.now ≡ self.now }
    {
        &self.inner
    }

    /// The value, which is then held no more.
    pub fn out(self) -> T
        ensures { result ≡ self }
    {
        let Held { inner } = self;
        inner
    }
}

/// Holds a value.
pub fn hold<T>(inner: T) -> Held<T>
    ensures { result ≡ inner }
{
    Held { inner }
}
