//! Rules of routes, made ready to be asked of requests without memory.
#![tactic(auto)]

mod fraction;
mod grpc;
mod header;
mod path;
mod query;
mod range;
mod route;

pub use fraction::FractionTest;
pub use grpc::GrpcTest;
pub use header::HeaderTest;
pub use path::PathTest;
pub use query::QueryTest;
pub use route::RouteTest;
pub use rx_auto::Scratch;
