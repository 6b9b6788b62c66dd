// The leaves of the codec: format codes, kinds of rows, the level limit and refusals.
// Each function is total, and its promise is an equation to a definition of specs/.
#![tactic(auto)]

pub mod format_code;
pub mod kind;
pub mod limit;
pub mod refusal;
