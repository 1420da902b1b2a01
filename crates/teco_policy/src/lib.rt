//! What an edit must not do to a text: policies, whether an edit keeps them, and where it does not.
//! Nothing here takes memory but the reading of a policy.
#![tactic(auto)]

mod alike;
mod breach;
mod broken;
mod changes;
mod lines;
mod percent;
mod policy;
mod refusal;
mod sameness;
mod search_text;
mod subsequence;
mod walks;
mod words;

pub use breach::{Breach, Place};
pub use broken::{Broken, first_broken};
pub use percent::Percent;
pub use policy::Policy;
pub use refusal::PolicyRefusal;
pub use sameness::say_same;
pub use search_text::SearchText;
pub use words::PolicyOption;
