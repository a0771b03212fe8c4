// The keys of a table, and the values under them.
ghost use Rattle.std.specs.Prelude.{◌≡◌, ◌≤◌, true, option_map, option_copied, string_bytes, map, not, IfOk, OnOk};
ghost use Rattle.sercos_document.specs.Clauses.{find, IsStrictlySortedBy, keys_of, string_cmp, get_member, as_integer, as_str, as_table, view, table_view, path, item_path, Refuses, Gives, Shows, demand, optional, required, between, number, number_or, is_among, least_unknown, known, boolean_or};

use crate::path::{Path, Place};
use crate::refusal::BadDocument;
use std::alloc::Global;
use toml::{Table, Value};

/// A table of a document, and where it is. A call returns a value, or the refusal by the document's rules (this profile). The only other
/// error is `Memory`: there is no room for the path of a refusal, or for a list.
#[derive(Clone, Copy)]
pub struct Keys<'a> {
    /// The source of memory for lists, and for the paths of refusals.
    pub alloc: Global,
    /// Where the table is.
    pub place: Place,
    /// The table.
    pub table: &'a Table,
}

impl<'a> Keys<'a> {
    ghost use Rattle.sercos_document.specs.Located.{located};

    // Returns the refusal `Missing` of a required key that is absent; `Memory` if there is no room for the path.
    pub(crate) fn missing(&self, key: &str) -> BadDocument
        ensures { Refuses result (BadDocument.Missing (path self.now.place key.now)) }
    {
        Path::to_key(self.alloc, self.place, key).map_or(BadDocument::Memory, BadDocument::Missing)
    }

    // Returns the refusal `Kind` of a value of another type; `Memory` if there is no room for the path.
    pub(crate) fn kind(&self, key: &str) -> BadDocument
        ensures { Refuses result (BadDocument.Kind (path self.now.place key.now)) }
    {
        Path::to_key(self.alloc, self.place, key).map_or(BadDocument::Memory, BadDocument::Kind)
    }

    // Returns the refusal `Kind` of a list's item of another type; `Memory` if there is no room for the path. `item` is the item's index,
    // counted from 0.
    pub(crate) fn item_kind(&self, key: &str, item: usize) -> BadDocument
        ensures { Refuses result (BadDocument.Kind (item_path self.now.place key.now item)) }
    {
        Path::to_item(self.alloc, self.place, key, item).map_or(
            BadDocument::Memory,
            BadDocument::Kind,
        )
    }

    /// Returns the refusal `Range` of a value that isn't allowed; `Memory` if there is no room for the path.
    pub fn range(&self, key: &str, value: i64) -> BadDocument
        ensures { Refuses result (BadDocument.Range (path self.now.place key.now) value) }
    {
        match Path::to_key(self.alloc, self.place, key) {
            Ok(path) => BadDocument::Range(path, value),
            Err(_) => BadDocument::Memory,
        }
    }

    /// Returns the refusal `Range` of a list's item that isn't allowed; `Memory` if there is no room for the path. `item` is the item's
    /// index, counted from 0.
    pub fn item_range(&self, key: &str, item: usize, value: i64) -> BadDocument
        ensures { Refuses result (BadDocument.Range (item_path self.now.place key.now item) value) }
    {
        match Path::to_item(self.alloc, self.place, key, item) {
            Ok(path) => BadDocument::Range(path, value),
            Err(_) => BadDocument::Memory,
        }
    }

    /// Returns the refusal `Twice` of a list's item that occurs twice; `Memory` if there is no room for the path. `item` is the item's
    /// index, counted from 0.
    pub fn item_twice(&self, key: &str, item: usize) -> BadDocument
        ensures { Refuses result (BadDocument.Twice (item_path self.now.place key.now item)) }
    {
        Path::to_item(self.alloc, self.place, key, item).map_or(
            BadDocument::Memory,
            BadDocument::Twice,
        )
    }

    /// Returns `Ok` if `allowed` is true: the value under a key is allowed. Otherwise the error is `Range` with `value`, or `Memory` if
    /// there is no room for the path.
    #[tactic(auto, unfolding(crate::specs::Answers::demand))]
    pub fn demand(&self, allowed: bool, key: &str, value: i64) -> Result<(), BadDocument>
        ensures value { Gives result (demand allowed (BadDocument.Range (path self.now.place key.now) value)) }
        ensures allowed { OnOk result (allowed ≡ true) }
    {
        if allowed {
            Ok(())
        } else {
            Err(self.range(key, value))
        }
    }

    /// Returns `Ok` if `once` is true: the value under a key occurs once. Otherwise the error is `Twice`, or `Memory` if there is no room
    /// for the path.
    #[tactic(auto, unfolding(crate::specs::Answers::demand))]
    pub fn demand_once(&self, once: bool, key: &str) -> Result<(), BadDocument>
        ensures value { Gives result (demand once (BadDocument.Twice (path self.now.place key.now))) }
        ensures once { OnOk result (once ≡ true) }
    {
        if once {
            return Ok(());
        }
        Err(Path::to_key(self.alloc, self.place, key).map_or(
            BadDocument::Memory,
            BadDocument::Twice,
        ))
    }

    /// Returns the value under a key; `None` if the key is absent.
    pub fn value(&self, key: &str) -> Option<&'a Value>
        ensures { option_map (λ v. view v.now) result ≡ get_member key.now (located self.now).members }
    {
        self.table.get(key)
    }

    /// Returns the whole number under a key; `None` if the key is absent. The error is `Kind` if the value has another type, or `Memory`.
    #[tactic(auto, unfolding(crate::specs::Tables::optional))]
    pub fn integer(&self, key: &str) -> Result<Option<i64>, BadDocument>
        ensures { Gives result (optional as_integer (located self.now) key.now) }
    {
        match self.value(key) {
            None => Ok(None),
            Some(value) => match value.as_integer() {
                Some(number) => Ok(Some(number)),
                None => Err(self.kind(key)),
            },
        }
    }

    /// Returns the whole number under a key. The error is `Missing` if the key is absent, `Kind` if the value has another type, or
    /// `Memory`.
    #[tactic(auto, unfolding(crate::specs::Tables::required))]
    pub fn required_integer(&self, key: &str) -> Result<i64, BadDocument>
        ensures { Gives result (required as_integer (located self.now) key.now) }
    {
        match self.integer(key)? {
            Some(number) => Ok(number),
            None => Err(self.missing(key)),
        }
    }

    // Returns the number if it is from `low` to `high`. Otherwise the error is `Range` with the number, or `Memory`.
    #[tactic(auto, unfolding(crate::specs::Tables::between))]
    fn between(&self, key: &str, low: u32, high: u32, number: i64) -> Result<u32, BadDocument>
        ensures value { Gives result (between (path self.now.place key.now) low high number) }
        ensures within { IfOk result (λ n. (low ≤ n) × (n ≤ high)) }
    {
        match u32::try_from(number) {
            Ok(n) if low <= n && n <= high => Ok(n),
            _ => Err(self.range(key, number)),
        }
    }

    /// Returns the number under a key, from `low` to `high`. The error is `Missing` if the key is absent, `Kind` if the value isn't a whole
    /// number, `Range` with the number if it is out of range, or `Memory`.
    #[tactic(auto, unfolding(crate::specs::Tables::number))]
    pub fn number(&self, key: &str, low: u32, high: u32) -> Result<u32, BadDocument>
        ensures value { Gives result (number (located self.now) key.now low high) }
        ensures within { IfOk result (λ n. (low ≤ n) × (n ≤ high)) }
    {
        let number = self.required_integer(key)?;
        self.between(key, low, high, number)
    }

    /// Returns the number under a key, from `low` to `high`, or `default` if the key is absent. `default` must be from `low` to `high`. The
    /// error is `Kind` if the value isn't a whole number, `Range` with the number if it is out of range, or `Memory`.
    #[tactic(auto, unfolding(crate::specs::Tables::number_or))]
    pub fn number_or(
        &self,
        key: &str,
        low: u32,
        high: u32,
        default: u32,
    ) -> Result<u32, BadDocument>
        requires low { low ≤ default }
        requires high { default ≤ high }
        ensures value { Gives result (number_or (located self.now) key.now low high default) }
        ensures within { IfOk result (λ n. (low ≤ n) × (n ≤ high)) }
    {
        match self.integer(key)? {
            Some(number) => self.between(key, low, high, number),
            None => Ok(default),
        }
    }

    /// Returns the boolean under a key, or `default` if the key is absent. The error is `Kind` if the value has another type, or `Memory`.
    #[tactic(auto, unfolding(crate::specs::Tables::optional, crate::specs::Tables::boolean_or))]
    pub fn boolean_or(&self, key: &str, default: bool) -> Result<bool, BadDocument>
        ensures { Gives result (boolean_or (located self.now) key.now default) }
    {
        match self.value(key) {
            None => Ok(default),
            Some(value) => match value.as_bool() {
                Some(truth) => Ok(truth),
                None => Err(self.kind(key)),
            },
        }
    }

    /// Returns the text under a key; `None` if the key is absent. The error is `Kind` if the value has another type, or `Memory`.
    #[tactic(auto, unfolding(crate::specs::Tables::optional))]
    pub fn text(&self, key: &str) -> Result<Option<&'a str>, BadDocument>
        ensures { Shows option_copied result (optional as_str (located self.now) key.now) }
    {
        match self.value(key) {
            None => Ok(None),
            Some(value) => match value.as_str() {
                Some(text) => Ok(Some(text)),
                None => Err(self.kind(key)),
            },
        }
    }

    /// Returns the text under a key. The error is `Missing` if the key is absent, `Kind` if the value has another type, or `Memory`.
    #[tactic(auto, unfolding(crate::specs::Tables::required))]
    pub fn required_text(&self, key: &str) -> Result<&'a str, BadDocument>
        ensures { Shows (λ t. t.now) result (required as_str (located self.now) key.now) }
    {
        match self.text(key)? {
            Some(text) => Ok(text),
            None => Err(self.missing(key)),
        }
    }

    /// Returns the table under a key. The error is `Missing` if the key is absent, `Kind` if the value has another type, or `Memory`.
    #[tactic(auto, unfolding(crate::specs::Tables::optional, crate::specs::Tables::required))]
    pub fn required_table(&self, key: &str) -> Result<&'a Table, BadDocument>
        ensures { Shows (λ t. table_view t.now) result (required as_table (located self.now) key.now) }
    {
        match self.value(key) {
            None => Err(self.missing(key)),
            Some(value) => match value.as_table() {
                Some(table) => Ok(table),
                None => Err(self.kind(key)),
            },
        }
    }

    /// Returns `Ok` if each key of the table is one of these. Otherwise the error is `Unknown` for the first other key in the order of
    /// bytes, or `Memory`.
    #[tactic(auto, unfolding(crate::specs::Tables::known))]
    pub fn known(&self, keys: &[&str]) -> Result<(), BadDocument>
        ensures { Gives result (known (located self.now) (map (λ k. k.now) keys.now)) }
    {
        match least_unknown(keys, self.table) {
            Some(key) => {
                let path = Path::to_key(self.alloc, self.place, key.as_str());
                Err(path.map_or(BadDocument::Memory, BadDocument::Unknown))
            }
            None => Ok(()),
        }
    }
}

// Returns the least key of a table, in the order of bytes, that isn't one of these; `None` if there is no such key.
fn least_unknown<'t>(keys: &[&str], table: &'t Table) -> Option<&'t String>
    ensures { option_map (λ k. string_bytes k.now) result ≡
        least_unknown (map (λ k. k.now) keys.now) (table_view table.now) }
{
    first_unknown(keys, table)
}

// Returns the first key of a table that isn't one of these; `None` if there is no such key. The keys of a table are sorted in the order of
// bytes.
fn first_unknown<'t>(keys: &[&str], table: &'t Table) -> Option<&'t String>
    ensures found { option_map (λ k. k.now) result ≡
        find (λ k. not (is_among (string_bytes k) (map (λ t. t.now) keys.now))) (keys_of table.now.entries) }
    ensures ordered { IsStrictlySortedBy string_cmp (keys_of table.now.entries) }
{
    table.keys().find(|key| !is_among(key.as_str(), keys))
}

// Returns whether a key is one of these.
#[tactic(auto, unfolding(crate::specs::Tables::is_among))]
fn is_among(key: &str, keys: &[&str]) -> bool
    ensures { result ≡ is_among key.now (map (λ k. k.now) keys.now) }
{
    for k in keys {
        if key == *k {
            return true;
        }
    }
    false
}
