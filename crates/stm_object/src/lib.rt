//! Objects: laws of records that are given by entries, and transactions over such objects.
#![tactic(auto)]

mod attempts;
mod body;
mod caller;
mod object;
mod pauses;
mod place;
mod renew;
mod search;
mod shared;
mod tracer;

pub use body::{Body, Query, QueryBody, Update, UpdateBody};
pub use caller::Caller;
pub use object::{Object, ObjectLaw, UserState};
pub use place::CommitPosition;
pub use renew::RenewFault;
pub use search::{find, seek};
pub use shared::{Shared, User};
pub use tracer::{Tracer, Untraced};
