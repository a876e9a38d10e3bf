// The call of a load that takes a batch's answers (docs/FORMS.md, 'Load state').
#![tactic(auto)]

mod answer;

pub use answer::load_answer;
