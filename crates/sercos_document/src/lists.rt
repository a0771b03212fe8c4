// The lists under a table's keys.
ghost use Rattle.std.specs.Prelude.{◌≡◌, ◌≤◌, [], length, option_map, map, IfOk};
ghost use Rattle.sercos_document.specs.Clauses.{as_integer, as_str, as_array, table_view, array_view, items_view, path, Shows, optional, tables_onto, counted, required_tables, tables, all_onto, short_list};

use crate::keys::Keys;
use crate::refusal::BadDocument;
use toml::value::Array;
use toml::{Table, Value};

impl<'a> Keys<'a> {
    ghost use Rattle.sercos_document.specs.Located.{located};

    /// Returns the list under a key; `None` if the key is absent. The error is `Kind` if the value has another type, or `Memory`.
    #[tactic(auto, unfolding(crate::specs::Tables::optional))]
    pub fn list(&self, key: &str) -> Result<Option<&'a Array>, BadDocument>
        ensures { Shows (option_map (λ v. array_view v.now)) result (optional as_array (located self.now) key.now) }
    {
        match self.value(key) {
            None => Ok(None),
            Some(value) => match value.as_array() {
                Some(list) => Ok(Some(list)),
                None => Err(self.kind(key)),
            },
        }
    }

    // Returns the items of a list as tables. The error is `Kind` at the list if one isn't a table, or `Memory`.
    #[tactic(auto, unfolding(crate::specs::Lists::tables_onto))]
    fn all_tables(&self, key: &str, list: &'a [Value]) -> Result<Vec<&'a Table>, BadDocument>
        ensures { Shows (λ v. map (λ t. table_view t.now) v.items) result
            (tables_onto (path self.now.place key.now) [] (items_view list.now)) }
    {
        let mut tables = Vec::new(self.alloc);
        for item in list {
            match item.as_table() {
                Some(table) => tables.push(table)?,
                None => return Err(self.kind(key)),
            }
        }
        Ok(tables)
    }

    // Returns the tables if there are `low` to `high` of them. Otherwise the error is `Range` with their number, or `Memory`.
    fn counted(
        &self,
        key: &str,
        low: usize,
        high: usize,
        tables: Vec<&'a Table>,
    ) -> Result<Vec<&'a Table>, BadDocument>
        ensures few { IfOk result (λ v. length v.items ≤ high) }
        ensures some { IfOk result (λ v. low ≤ length v.items) }
        ensures value { Shows (λ v. map (λ t. table_view t.now) v.items) result
            (counted (path self.now.place key.now) low high (map (λ t. table_view t.now) tables.entry.items)) }
    {
        self.demand(
            low <= tables.len() && tables.len() <= high,
            key,
            tables.len() as i64,
        )?;
        Ok(tables)
    }

    /// Returns the list of `low` to `high` tables under a key. The error is `Missing` if the key is absent; `Kind` at the list if it or an
    /// item has another type; `Range` with the number of tables if it is out of range; or `Memory`.
    #[tactic(auto, unfolding(crate::specs::Tables::required, crate::specs::Lists::required_tables))]
    pub fn required_tables(
        &self,
        key: &str,
        low: usize,
        high: usize,
    ) -> Result<Vec<&'a Table>, BadDocument>
        ensures value { Shows (λ v. map (λ t. table_view t.now) v.items) result
            (required_tables (located self.now) key.now low high) }
        ensures few { IfOk result (λ v. length v.items ≤ high) }
        ensures some { IfOk result (λ v. low ≤ length v.items) }
    {
        match self.list(key)? {
            Some(list) => {
                let tables = self.all_tables(key, list.as_slice())?;
                self.counted(key, low, high, tables)
            }
            None => Err(self.missing(key)),
        }
    }

    /// Returns the list of `low` to `high` tables under a key, or no tables if the key is absent. The error is `Kind` at the list if it or
    /// an item has another type, `Range` with the number of tables if it is out of range, or `Memory`.
    #[tactic(auto, unfolding(crate::specs::Lists::tables))]
    pub fn tables(&self, key: &str, low: usize, high: usize) -> Result<Vec<&'a Table>, BadDocument>
        ensures value { Shows (λ v. map (λ t. table_view t.now) v.items) result
            (tables (located self.now) key.now low high) }
        ensures few { IfOk result (λ v. length v.items ≤ high) }
    {
        match self.list(key)? {
            Some(list) => {
                let tables = self.all_tables(key, list.as_slice())?;
                self.counted(key, low, high, tables)
            }
            None => Ok(Vec::new(self.alloc)),
        }
    }

    /// Returns the list of at most `most` values under a key, or an empty list if the key is absent. The error is `Kind` if the value has
    /// another type, `Range` with the number of values if there are more, or `Memory`.
    #[tactic(auto, using(crate::proofs::Items::items_count), unfolding(crate::specs::Lists::short_list))]
    pub fn short_list(&self, key: &str, most: usize) -> Result<&'a [Value], BadDocument>
        ensures value { Shows (λ v. items_view v.now) result (short_list (located self.now) key.now most) }
        ensures short { IfOk result (λ v. length v.now ≤ most) }
    {
        match self.list(key)? {
            None => Ok(&[]),
            Some(list) => {
                let values = list.as_slice();
                self.demand(values.len() <= most, key, values.len() as i64)?;
                Ok(values)
            }
        }
    }

    /// Returns the items of a list under a key as texts, in their order. The error is `Kind` at the first item that is not a text, or
    /// `Memory`.
    #[tactic(auto, unfolding(crate::specs::Lists::all_onto))]
    pub fn texts(&self, key: &str, list: &'a [Value]) -> Result<Vec<&'a str>, BadDocument>
        ensures value { Shows (λ v. map (λ t. t.now) v.items) result
            (all_onto as_str self.now.place key.now [] (items_view list.now)) }
        ensures count { IfOk result (λ v. length v.items ≡ length list.now) }
    {
        let mut texts = Vec::new(self.alloc);
        for item in list {
            match item.as_str() {
                Some(text) => texts.push(text)?,
                None => return Err(self.item_kind(key, texts.len())),
            }
        }
        Ok(texts)
    }

    /// Returns the items of a list under a key as whole numbers, in their order. The error is `Kind` at the first item that is not a whole
    /// number, or `Memory`.
    #[tactic(auto, unfolding(crate::specs::Lists::all_onto))]
    pub fn numbers(&self, key: &str, list: &[Value]) -> Result<Vec<i64>, BadDocument>
        ensures { Shows (λ v. v.items) result (all_onto as_integer self.now.place key.now [] (items_view list.now)) }
    {
        let mut numbers = Vec::new(self.alloc);
        for item in list {
            match item.as_integer() {
                Some(number) => numbers.push(number)?,
                None => return Err(self.item_kind(key, numbers.len())),
            }
        }
        Ok(numbers)
    }
}
