// What a test expects.
ghost use Rattle.std.specs.Prelude.{◌≡◌};
ghost use Rattle.serde_json.specs.View.{view};
ghost use Rattle.json_tables.specs.declared.message.Message.TheVariants as messages;
ghost use Rattle.json_walk.specs.Outcome.{Gives};
ghost use Rattle.json_walk.specs.Members.{names_of};
ghost use Rattle.test_read.specs.Validation.{expects_nothing as expects_nothing_of, expecting as expecting_of, both_header_rules, validate};

use crate::test::Expect;
use cfg_types::HeaderRule;
use json_walk::{
    AnyText, Kind, ListOf, Message, Names, ReadFail, Reader, Text, members, optional, or_empty,
    refused_at,
};
use read_match::HeaderMatcher;
use serde_json::Value;
use sqlite_items::Items;
use std::alloc::Global;

#[tactic(auto, unfolding(crate::specs::Validation::expects_nothing))]
fn expects_nothing(expect: &Expect) -> bool
    ensures { result ≡ expects_nothing_of expect.now }
{
    expect.cluster_name.is_none()
        && expect.virtual_cluster_name.is_none()
        && expect.virtual_host_name.is_none()
        && expect.host_rewrite.is_none()
        && expect.path_rewrite.is_none()
        && expect.path_redirect.is_none()
        && expect.request_header_matches.len() == 0
        && expect.response_header_matches.len() == 0
}

#[tactic(auto, unfolding(crate::specs::Validation::expecting))]
fn expecting(alloc: Global, place: &Text, expect: Expect) -> Result<Expect, ReadFail>
    ensures { Gives (λ e. e) result (expecting_of place.now expect) }
{
    if expects_nothing(&expect) {
        return Err(refused_at(place.copy(alloc)?, Kind::Missing));
    }
    Ok(expect)
}

/// The rules on headers that are expected of the request, and of the response.
#[tactic(auto, unfolding(crate::specs::Validation::both_header_rules))]
fn header_rules(
    alloc: Global,
    value: &Value,
    place: &Text,
    names: &Names,
) -> Result<(Items<HeaderRule>, Items<HeaderRule>), ReadFail>
    requires { names.now.spelled.items ≡ names_of messages.Validate (view value.now) }
    ensures { Gives (λ both. both) result (both_header_rules place.now (view value.now)) }
{
    const M: Message = Message::Validate;
    let rules = ListOf {
        most: None,
        element: HeaderMatcher,
    };
    let request = optional(alloc, value, place, names, M, 6, &rules)?;
    let response = optional(alloc, value, place, names, M, 7, &rules)?;
    Ok((or_empty(alloc, request), or_empty(alloc, response)))
}

/// What a test expects: at least one text or rule on a header, else `Missing`.
#[derive(Drop)]
pub struct Validate;

impl Reader for Validate {
    type Out = Expect;

    ghost reads = { λ _. validate };

    #[tactic(auto, unfolding(crate::specs::Validation::validate))]
    fn read(&self, alloc: Global, value: &Value, place: &Text) -> Result<Expect, ReadFail> {
        const M: Message = Message::Validate;
        let names = members(alloc, value, place, M)?;
        let cluster_name = optional(alloc, value, place, &names, M, 0, &AnyText)?;
        let virtual_cluster_name = optional(alloc, value, place, &names, M, 1, &AnyText)?;
        let virtual_host_name = optional(alloc, value, place, &names, M, 2, &AnyText)?;
        let host_rewrite = optional(alloc, value, place, &names, M, 3, &AnyText)?;
        let path_rewrite = optional(alloc, value, place, &names, M, 4, &AnyText)?;
        let path_redirect = optional(alloc, value, place, &names, M, 5, &AnyText)?;
        let (request, response) = header_rules(alloc, value, place, &names)?;
        let expect = Expect {
            cluster_name,
            virtual_cluster_name,
            virtual_host_name,
            host_rewrite,
            path_rewrite,
            path_redirect,
            request_header_matches: request,
            response_header_matches: response,
        };
        expecting(alloc, place, expect)
    }
}
