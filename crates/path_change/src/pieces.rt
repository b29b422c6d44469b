// The pieces that targets are made of.
ghost use Rattle.std.specs.Prelude.{◌≡◌, ◌++◌, OnOk};
ghost use Rattle.text_base.specs.Seen.{query_part};
ghost use Rattle.path_change.specs.Paths.{rest_of as rest_behind, rewritten_path};

use cfg_types::PathRule;
use req_model::Request;
use text_base::OutOfMemory;

/// The query of the target with its `?`, or nothing. Takes no memory.
pub fn query_of(request: &Request) -> &[u8]
    ensures { result.now ≡ query_part request.now.target }
{
    let start = request.path_part().len();
    let target = request.parts().target.as_slice();
    target.get(start..).unwrap_or_default()
}

/// What the rule leaves of a path that is swapped: all behind the matched prefix, or nothing. Takes no memory.
fn rest_of<'a>(rule: &PathRule, path: &'a [u8]) -> &'a [u8]
    ensures { result.now ≡ rest_behind rule.now path.now }
{
    match rule {
        PathRule::Prefix(prefix) | PathRule::Separated(prefix) => {
            path.get(prefix.as_bytes().len()..).unwrap_or_default()
        }
        PathRule::Exact(_) | PathRule::Pattern(_) => &[],
    }
}

/// Appends the path; another text, where not empty, stands in place of the matched prefix or of the whole path.
pub fn push_path(
    target: &mut Vec<u8>,
    rule: &PathRule,
    rewrite: &[u8],
    path: &[u8],
) -> Result<(), OutOfMemory>
    ensures { OnOk result (target.new.items ≡ target.old.items ++ rewritten_path rule.now rewrite.now path.now) }
{
    if rewrite.is_empty() {
        return target.extend_from_slice(path);
    }
    target.extend_from_slice(rewrite)?;
    target.extend_from_slice(rest_of(rule, path))
}
