// Readers of values without members of their own, for the fields of a message.
ghost use Rattle.std.specs.Prelude.{pos, negsuc};
ghost use Rattle.json_walk.specs.Leaves.{text, truth, list_of as list_read};
ghost use Rattle.json_walk.specs.Numbers.{whole};

use crate::fields::Reader;
use crate::leaves::{read_list, text_of, truth_of};
use crate::numbers::whole_of;
use crate::refusal::ReadFail;
use serde_json::Value;
use sqlite_items::Items;
use std::alloc::Global;
use text_base::Text;

/// Any text.
#[derive(Drop)]
pub struct AnyText;

impl Reader for AnyText {
    type Out = Text;

    ghost reads = { λ _. text };

    fn read(&self, alloc: Global, value: &Value, place: &Text) -> Result<Text, ReadFail> {
        text_of(alloc, value, place)
    }
}

/// True or false.
#[derive(Drop)]
pub struct Truth;

impl Reader for Truth {
    type Out = bool;

    ghost reads = { λ _. truth };

    fn read(&self, alloc: Global, value: &Value, place: &Text) -> Result<bool, ReadFail> {
        truth_of(alloc, value, place)
    }
}

/// A whole number of 64 bits with a sign.
#[derive(Drop)]
pub struct Int64;

impl Reader for Int64 {
    type Out = i64;

    ghost reads = { λ _. whole (negsuc 9223372036854775807) (pos 9223372036854775807) };

    fn read(&self, alloc: Global, value: &Value, place: &Text) -> Result<i64, ReadFail> {
        let number = whole_of(alloc, value, place, i64::MIN as i128, i64::MAX as i128)?;
        Ok(number as i64)
    }
}

/// A list of at most `most` elements.
#[derive(Drop)]
pub struct ListOf<R> {
    pub most: Option<u32>,
    pub element: R,
}

impl<R: Reader> Reader for ListOf<R> {
    type Out = Items<R::Out>;

    ghost reads = { λ l. list_read l.most (R.reads l.element) };

    fn read(&self, alloc: Global, value: &Value, place: &Text) -> Result<Items<R::Out>, ReadFail> {
        read_list(alloc, value, place, self.most, &self.element)
    }
}
