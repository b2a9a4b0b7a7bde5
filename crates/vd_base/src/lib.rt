//! Names, texts and lists, C types, and the shelf and sink through which the desk meets the outside.
#![tactic(auto)]

mod calls;
mod ctype;
mod held;
mod layout;
mod list;
mod name;
mod numbers;
mod shelf;
mod sink;
mod text;

pub use ctype::{CType, Field, copy_fields};
pub use held::{Held, hold};
pub use layout::{LayoutFault, Slot, Structs, are_fields, layout_laws};
pub use list::List;
pub use name::{Name, NameFault, is_name, is_word_byte};
pub use shelf::{FileShelf, MemShelf, Shelf, ShelfFault};
pub use sink::{MemSink, OutSink, Sink, SinkFault};
pub use sqlite_items::Boxed;
pub use text::Text;
