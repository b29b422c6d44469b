// Tests of a test file.
use cfg_types::HeaderRule;
use req_model::Request;
use sqlite_items::Items;
use text_base::{Heads, Text};

/// A request, the headers of the response to it, and what is to come of it.
#[derive(Drop)]
pub struct Test {
    pub name: Text,
    pub request: Request,
    pub response: Heads,
    pub expect: Expect,
}

/// What is to come of a request. An empty text says that nothing comes there, and an absent one says nothing.
#[derive(Drop)]
pub struct Expect {
    pub cluster_name: Option<Text>,
    pub virtual_cluster_name: Option<Text>,
    pub virtual_host_name: Option<Text>,
    pub host_rewrite: Option<Text>,
    pub path_rewrite: Option<Text>,
    pub path_redirect: Option<Text>,
    pub request_header_matches: Items<HeaderRule>,
    pub response_header_matches: Items<HeaderRule>,
}
