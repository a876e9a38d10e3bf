// The call with which a load begins (docs/FORMS.md, 'Load state').
#![tactic(auto)]

mod begin;

pub use begin::load_begin;
