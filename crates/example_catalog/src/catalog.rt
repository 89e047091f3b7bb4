//! Products by their number, and the rows of a CSV that they come from.
ghost use Rattle.std.specs.Prelude.{◌≡◌, List};
ghost use Rattle.std.specs.Ordering.{nat_cmp};
ghost use Rattle.iddqd.specs.Contents.{Ascends};
ghost use Rattle.example_catalog.specs.Catalog.{products_between};
ghost use Rattle.example_catalog.specs.declared.catalog.Product.{Product};

use csv::ByteRecord;
use iddqd::id_ord_map::Iter;
use iddqd::{IdOrdItem, IdOrdMap};
use std::alloc::{AllocError, Global};
use std::marker::Model;
use std::str;

/// One row: a product and the line that it comes from.
#[derive(Debug, Drop)]
pub(crate) struct Product {
    pub(crate) number: u32,
    pub(crate) name: String,
    pub(crate) cents: u32,
    pub(crate) line: u64,
}

impl IdOrdItem for Product {
    type Key = u32;

    ghost key = { λ product. product.number };

    fn key(&self) -> &u32 {
        &self.number
    }
}

/// The products, seen as a list that ascends by their numbers.
#[derive(Drop)]
pub(crate) struct Catalog(pub(crate) IdOrdMap<Product>);

impl Model for Catalog {
    ghost Value = { List Product };

    ghost view = { λ all. all.0.items };

    ghost invariant = { λ all. Ascends (λ product. product.number) nat_cmp all.0.items };
}

impl Catalog {
    /// Returns the products whose numbers are in the range, without its end, ascending.
    pub(crate) fn between(&self, from: u32, to: u32) -> Iter<'_, Product>
        ensures { result ≡ products_between from to self.now }
    {
        self.0.range(from..to)
    }
}

/// Returns the product of a row of three fields, or `None` if the row is of another form.
pub(crate) fn product_of(
    alloc: Global,
    row: &ByteRecord,
    line: u64,
) -> Result<Option<Product>, AllocError> {
    let (Some(number), Some(name), Some(cents)) = (
        number_at(row, 0),
        text_at(row, 1),
        number_at(row, 2),
    ) else {
        return Ok(None);
    };
    Ok(Some(Product {
        number,
        name: name.to_string(alloc)?,
        cents,
        line,
    }))
}

fn text_at(row: &ByteRecord, at: usize) -> Option<&str> {
    str::from_utf8(row.get(at)?).ok()
}

fn number_at(row: &ByteRecord, at: usize) -> Option<u32> {
    text_at(row, at)?.parse().ok()
}
