//! What is true of printed text.

ghost use Rattle.vd_cgrammar.specs.Precedence.{PrintedSpells};
ghost use Rattle.vd_cgrammar.specs.Standing.{ExpressionsReadBack, FunctionsReadBack, PrintedIsRead, ReadIsSpelled, StatementsReadBack};
ghost use Rattle.vd_cgrammar.specs.Vocabularies.{SectionsHaveVocabularies};
ghost use Rattle.vd_cgrammar.specs.Shallow.{PrintedIsShallow};
ghost use Rattle.vd_cgrammar.specs.PrintLaw.{NumbersAreSpelled, SpacedWordsAreTokens};

/// Laws of printed text: the call does nothing.
pub fn print_laws()
    ensures tokens { SpacedWordsAreTokens }
    ensures numbers { NumbersAreSpelled }
{}

/// The text of an expression, by the precedence of C: the call does nothing.
pub fn precedence_laws()
    ensures printed { PrintedSpells }
    ensures read { PrintedIsRead }
    ensures spelled { ReadIsSpelled }
    ensures back { ExpressionsReadBack }
{}

/// What the reader of a section takes words for: the call does nothing.
pub fn vocabulary_laws()
    ensures { SectionsHaveVocabularies }
{}

/// How deeply printed text is nested: the call does nothing.
pub fn shallow_laws()
    ensures { PrintedIsShallow }
{}

/// The text of a statement: the call does nothing.
pub fn statement_laws()
    ensures { StatementsReadBack }
{}

/// The text of a function: the call does nothing.
pub fn function_laws()
    ensures { FunctionsReadBack }
{}
