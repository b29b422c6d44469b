//! What a route makes of a request: the picked share, the new target, the URL of a redirect and the cluster.
#![tactic(auto)]

mod clusters;
mod pieces;
mod redirects;
mod shares;
mod targets;

pub use clusters::cluster_of;
pub use redirects::{redirect_url, tls_url};
pub use shares::pick_share;
pub use targets::new_target;
