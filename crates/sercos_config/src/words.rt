// Keys whose values are words.
ghost use Rattle.std.specs.Prelude.{◌≡◌, option_copied, option_and_then};
ghost use Rattle.sercos_config.specs.Clauses.{get_member, as_str, located, key_if};

use sercos_document::Keys;

/// Returns the text under `key`. `None` if the key is absent or its value isn't a text; neither is refused here.
pub(crate) fn glance<'a>(keys: &Keys<'a>, key: &str) -> Option<&'a str>
    ensures { option_copied result ≡ option_and_then as_str (get_member key.now (located keys.now).members) }
{
    match keys.value(key) {
        Some(value) => value.as_str(),
        None => None,
    }
}

/// Returns `key` if `counts` is true, and `kind` otherwise. In a list of known keys that has `kind` already, a key that doesn't count thus
/// adds nothing.
#[tactic(auto, unfolding(crate::specs::Words::key_if))]
pub(crate) fn key_if(counts: bool, key: &'static str) -> &'static str
    ensures { result.now ≡ key_if counts key.now }
{
    if counts { key } else { "kind" }
}
