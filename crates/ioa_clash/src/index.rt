//! What stands under a name, found by the order of names.

ghost use Rattle.std.specs.Prelude.{◌≡◌, OnOk};
ghost use Rattle.std.specs.Str.{bytes_eq};
ghost use Rattle.ioa_clash.specs.Rows.{AreNumbered, names_of, number_of};

use ioa_value::OutOfMemory;
use std::alloc::Global;
use std::collections::BTreeMap;

/// Up to so many names are compared one after another, which takes less time than their order does.
const FEW: usize = 8;

/// A name, and the items of this name.
struct Row<P> {
    name: String,
    items: Vec<P>,
}

/// Written out, so that who drops one calls this, and does not take it apart itself.
impl<P: Drop> Drop for Row<P> {
    fn drop(self) {
        let Row { name: _, items: _ } = self;
    }
}

/// Items by names: those of one name in the order in which they were added. It wants memory for each name and for each item.
pub struct Index<P> {
    alloc: Global,
    rows: Vec<Row<P>>,
    /// The numbers of the rows by their names.
    numbers: BTreeMap<String, usize>,
    ghost numbered: { AreNumbered numbers (names_of rows.items) },
}

/// Written out, so that who drops one calls this, and does not take it apart itself.
impl<P: Drop> Drop for Index<P> {
    fn drop(self) {
        let Index {
            alloc: _,
            rows: _,
            numbers: _,
        } = self;
    }
}

impl<P: Drop> Index<P> {
    ghost use Rattle.ioa_clash.specs.Index.{Adds, HasNothing, under};

    /// The index that has nothing.
    pub fn new(alloc: Global) -> Index<P>
        ensures { HasNothing result }
    {
        Index {
            alloc,
            rows: Vec::new(alloc),
            numbers: BTreeMap::new(alloc),
        }
    }

    /// Puts the item behind those of its name.
    pub fn add(&mut self, name: &str, item: P) -> Result<(), OutOfMemory>
        ensures { OnOk result (Adds self.old name.now item self.new) }
    {
        match self.numbers.get(name).copied() {
            Some(number) => self.rows[number].items.push(item)?,
            None => {
                let mut items = Vec::new(self.alloc);
                items.push(item)?;
                let row = Row {
                    name: name.to_string(self.alloc)?,
                    items,
                };
                let number = self.rows.len();
                self.rows.reserve(1)?;
                self.numbers.insert(name.to_string(self.alloc)?, number)?;
                self.rows.push_reserved(row);
            }
        }
        Ok(())
    }

    /// The items of this name, in the order in which they were added.
    pub fn named(&self, name: &str) -> &[P]
        ensures { result.now ≡ under self.now name.now }
    {
        match self.number_of(name) {
            Some(number) => self.rows[number].items.as_slice(),
            None => &[],
        }
    }

    /// The number of the name's row.
    fn number_of(&self, name: &str) -> Option<usize>
        ensures { result ≡ number_of 0 (names_of self.now.rows.items) name.now }
    {
        if self.rows.len() <= FEW {
            return first_named(&self.rows, name);
        }
        self.numbers.get(name).copied()
    }
}

/// The number of the first row of this name.
fn first_named<P>(rows: &[Row<P>], name: &str) -> Option<usize>
    ensures { result ≡ number_of 0 (names_of rows.now) name.now }
{
    for i in 0..rows.len() {
        if same_name(rows[i].name.as_bytes(), name.as_bytes()) {
            return Some(i);
        }
    }
    None
}

/// Whether two names are equal. Names are short: a call that compares words of memory costs more than their few bytes.
fn same_name(a: &[u8], b: &[u8]) -> bool
    ensures { result ≡ bytes_eq a.now b.now }
{
    if a.len() != b.len() {
        return false;
    }
    for i in 0..a.len() {
        if a[i] != b[i] {
            return false;
        }
    }
    true
}
