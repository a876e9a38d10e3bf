// The call of a load that hands a batch out (docs/FORMS.md, 'Load state').
#![tactic(auto)]

mod batch;

pub use batch::load_batch;
