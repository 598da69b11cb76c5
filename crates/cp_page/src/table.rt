//! Tables of different rows.

use crate::json::Json;
use indexmap::IndexSet;
use std::alloc::{AllocError, Global};

/// Different rows in the order in which they came, each named by its place.
#[derive(Drop)]
pub struct PageRows {
    alloc: Global,
    rows: Json,
    places: IndexSet<String>,
}

impl PageRows {
    /// A table without rows.
    pub fn new(alloc: Global) -> PageRows {
        let mut rows = Json::new(alloc);
        rows.open();
        PageRows {
            alloc,
            rows,
            places: IndexSet::new(alloc),
        }
    }

    /// The place of a row, which is added where it is new.
    pub fn place(&mut self, row: &Json) -> Result<usize, AllocError> {
        let text = row.text()?;
        if let Some(place) = self.places.get_index_of(text) {
            return Ok(place);
        }
        self.rows.put_value(row);
        let (place, _) = self
            .places
            .insert_full(String::from_str(self.alloc, text)?)?;
        Ok(place)
    }

    /// The place of a text.
    pub fn place_text(&mut self, text: &str) -> Result<usize, AllocError> {
        let mut row = Json::new(self.alloc);
        row.put_quoted(text);
        self.place(&row)
    }

    /// Appends a member of this name, the rows as a list.
    pub fn put(&self, json: &mut Json, name: &str) {
        json.put_name(name);
        json.put_value(&self.rows);
        json.close();
    }
}
