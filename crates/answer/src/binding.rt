// A binding: name, source, from-module, public, any, captured, local, slot, zero.
ghost use Rattle.std.specs.Prelude.{◌≡◌, [], ◌∷◌};
ghost use Rattle.answer.specs.Fields.{packed, cut, changed, Part};
ghost use Rattle.answer.specs.Records.{binding_widths};

use crate::widths::{FLAG, PLACE, WORD};

// What one of a field counts in the record.
const SLOT: u64 = 4096;

const LOCAL: u64 = SLOT * PLACE;

const CAPTURED: u64 = LOCAL * FLAG;

const ANY: u64 = CAPTURED * FLAG;

const PUBLIC: u64 = ANY * FLAG;

const FROM_MODULE: u64 = PUBLIC * FLAG;

const SOURCE: u64 = FROM_MODULE * FLAG;

const NAME: u64 = SOURCE * WORD;

pub fn name(r: u64) -> u64
    ensures { Part binding_widths 0 r result }
{
    r / NAME % WORD
}

pub fn source(r: u64) -> u64
    ensures { Part binding_widths 1 r result }
{
    r / SOURCE % WORD
}

pub fn from_module(r: u64) -> u64
    ensures { Part binding_widths 2 r result }
{
    r / FROM_MODULE % FLAG
}

pub fn public(r: u64) -> u64
    ensures { Part binding_widths 3 r result }
{
    r / PUBLIC % FLAG
}

pub fn any(r: u64) -> u64
    ensures { Part binding_widths 4 r result }
{
    r / ANY % FLAG
}

pub fn captured(r: u64) -> u64
    ensures { Part binding_widths 5 r result }
{
    r / CAPTURED % FLAG
}

pub fn local(r: u64) -> u64
    ensures { Part binding_widths 6 r result }
{
    r / LOCAL % FLAG
}

pub fn slot(r: u64) -> u64
    ensures { Part binding_widths 7 r result }
{
    r / SLOT % PLACE
}

// The record of these fields, each cut to its width.
pub fn make(
    name: u64,
    source: u64,
    from_module: u64,
    public: u64,
    any: u64,
    captured: u64,
    local: u64,
    slot: u64,
) -> u64
    ensures { result ≡ packed binding_widths (cut binding_widths (name ∷ source ∷ from_module ∷ public ∷ any ∷ captured ∷ local ∷ slot ∷ [])) }
{
    name % WORD * NAME
        + source % WORD * SOURCE
        + from_module % FLAG * FROM_MODULE
        + public % FLAG * PUBLIC
        + any % FLAG * ANY
        + captured % FLAG * CAPTURED
        + local % FLAG * LOCAL
        + slot % PLACE * SLOT
}

// The record with this field replaced. Each writer is one line: a function for the three would take the field's value and its weight, and be no plainer.
pub fn with_public(r: u64, v: u64) -> u64
    ensures { result ≡ changed binding_widths 3 v r }
{
    r - public(r) * PUBLIC + v % FLAG * PUBLIC
}

// The record with this field replaced.
pub fn with_any(r: u64, v: u64) -> u64
    ensures { result ≡ changed binding_widths 4 v r }
{
    r - any(r) * ANY + v % FLAG * ANY
}

// The record with this field replaced.
pub fn with_captured(r: u64, v: u64) -> u64
    ensures { result ≡ changed binding_widths 5 v r }
{
    r - captured(r) * CAPTURED + v % FLAG * CAPTURED
}
