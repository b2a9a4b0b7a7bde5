//! Laws of plain code and scripts: the calls do nothing.

ghost use Rattle.vd_steps.specs.CodeLaws.{PlainExpressions, PlainStatements};
ghost use Rattle.vd_steps.specs.ScriptLaws.{ScriptsAreComplete};

/// Each kind of expression and of statement stands for its own plain one.
#[tactic(auto, using(crate::proofs::Layers::plain_expressions, crate::proofs::Layers::plain_statements_are))]
pub fn code_laws()
    ensures expressions { PlainExpressions }
    ensures statements { PlainStatements }
{}

/// What a script stands for has at each step the blocks that its line shows.
#[tactic(auto, using(crate::proofs::Complete::scripts_are_complete))]
pub fn script_laws()
    ensures { ScriptsAreComplete }
{}
