ghost use Rattle.std.specs.Prelude.{map, ◌≡◌, nat_eq};
ghost use Rattle.std.specs.Cmp.Lexicographic.{pointwise};
ghost use Rattle.std.specs.List.{list_any};
ghost use Rattle.plugin_api.specs.Ranks.{has_name, names_of, rank_of, ranks};

use crate::Rank;
use dns_data::Text;

/// The rank of a directive. None where the table of names doesn't have its name.
#[tactic(auto, unfolding(crate::specs::Ranks::rank_of))]
pub fn rank(name: &Text) -> Option<Rank>
    ensures { result ≡ rank_of name.now }
{
    for rank in ranks() {
        if has_name(name, *rank) {
            return Some(*rank);
        }
    }
    None
}

// Every rank, in the order of a chain.
fn ranks() -> &'static [Rank]
    ensures { result.now ≡ ranks }
{
    &[
        Rank::Passive,
        Rank::Reload,
        Rank::Errors,
        Rank::Log,
        Rank::Dns64,
        Rank::Acl,
        Rank::Any,
        Rank::Extra,
        Rank::Cache,
        Rank::Rewrite,
        Rank::Template,
        Rank::Hosts,
        Rank::File,
        Rank::Forward,
        Rank::Whoami,
    ]
}

fn has_name(name: &Text, rank: Rank) -> bool
    ensures { result ≡ has_name name.now rank }
{
    is_among(name, names_of(rank))
}

// The names of directives of a rank.
fn names_of(rank: Rank) -> &'static [&'static str]
    ensures { map (λ name. name.now) result.now ≡ names_of rank }
{
    match rank {
        Rank::Passive => &[
            "debug",
            "health",
            "ready",
            "prometheus",
            "pprof",
            "loop",
            "cancel",
        ],
        Rank::Reload => &["reload"],
        Rank::Errors => &["errors"],
        Rank::Log => &["log"],
        Rank::Dns64 => &["dns64"],
        Rank::Acl => &["acl"],
        Rank::Any => &["any"],
        Rank::Extra => &[],
        Rank::Cache => &["cache"],
        Rank::Rewrite => &["rewrite"],
        Rank::Template => &["template"],
        Rank::Hosts => &["hosts"],
        Rank::File => &["file"],
        Rank::Forward => &["forward"],
        Rank::Whoami => &["whoami"],
    }
}

fn is_among(name: &Text, names: &[&str]) -> bool
    ensures { result ≡ list_any (pointwise nat_eq name.now) (map (λ n. n.now) names.now) }
{
    for other in names {
        if is(name, other) {
            return true;
        }
    }
    false
}

fn is(name: &Text, text: &str) -> bool
    ensures { result ≡ pointwise nat_eq name.now text.now }
{
    name.is(text)
}
