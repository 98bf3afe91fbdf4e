//! The items of a frame, from left to right.

ghost use Rattle.std.specs.Prelude.{◌≡◌, ◌-◌, ◌++◌, ◌∷◌, [], length, OnOk, IfErr};
ghost use Rattle.def_op.specs.declared.spots.Part.TheVariants.{Code, Number, Vat, Swiss, Other};
ghost use Rattle.ev_parts.specs.declared.walking.WalkError.TheVariants.{Memory};
ghost use Rattle.ev_op.specs.Gives.{Gives};
ghost use Rattle.def_op.specs.Reading.{byte_where, unsigned_at, signed_at, swiss_at, vat_at, primitive_at, character_at, few_at};
ghost use Rattle.ev_parts.specs.Walks.{Walks, stopped};
ghost use Rattle.def_op.specs.Items.{item, code, text_len_at, opening_at, kind_where, is_target, is_subject, is_op};

use def_op::{Kind, Part, Spot};
use ev_op::fault::ReadError;
use ev_op::kind::{is_list, kind_of};
use ev_op::numbers::{
    character_of, few_of, primitive_of, signed_of, swiss_of, unsigned_of, vat_of,
};
use ev_op::text::text_of;
use std::alloc::{AllocError, AllocFailed};

/// Want of memory, or the place of the first item that is not allowed.
#[derive(Clone, Copy)]
pub(crate) enum WalkError {
    Memory,
    Stopped(u64),
}

impl From<AllocError> for WalkError {
    ghost from_gives = { λ _ e. e ≡ Memory };

    fn from(_error: AllocError) -> WalkError {
        WalkError::Memory
    }
}

impl<T: Drop> From<AllocFailed<T>> for WalkError {
    ghost from_gives = { λ _ e. e ≡ Memory };

    fn from(_error: AllocFailed<T>) -> WalkError {
        WalkError::Memory
    }
}

/// Notes an item at the front of the bytes, of so many in all.
pub(crate) fn note(
    total: usize,
    bytes: &[u8],
    spots: &mut Vec<Spot>,
    part: Part,
) -> Result<(), WalkError>
    ensures ok { OnOk result (spots.new.items ≡ spots.old.items ++ record { at = total - length bytes.now; part = part } ∷ []) }
    ensures err { IfErr result (λ e. e ≡ Memory) }
{
    let at = total.saturating_sub(bytes.len()) as u64;
    spots.push(Spot { at, part })?;
    Ok(())
}

/// What stopped at the front of the bytes.
fn stopped(total: usize, bytes: &[u8], error: ReadError) -> WalkError
    ensures { result ≡ stopped (total - length bytes.now) error }
{
    match error {
        ReadError::Memory => WalkError::Memory,
        ReadError::Refused => WalkError::Stopped(total.saturating_sub(bytes.len()) as u64),
    }
}

pub(crate) fn walk_number<'a>(
    total: usize,
    bytes: &'a [u8],
    spots: &mut Vec<Spot>,
) -> Result<(u64, &'a [u8]), WalkError>
    ensures { Walks (λ x. (x.0, x.1.now)) result spots.new.items (item Number total spots.old.items bytes.now (unsigned_at bytes.now)) }
{
    match unsigned_of(bytes) {
        Ok((value, rest)) => {
            note(total, bytes, spots, Part::Number(value))?;
            Ok((value, rest))
        }
        Err(error) => Err(stopped(total, bytes, error)),
    }
}

pub(crate) fn walk_few<'a>(
    total: usize,
    bytes: &'a [u8],
    spots: &mut Vec<Spot>,
) -> Result<(u64, &'a [u8]), WalkError>
    ensures { Walks (λ x. (x.0, x.1.now)) result spots.new.items (item Number total spots.old.items bytes.now (few_at bytes.now)) }
{
    match few_of(bytes) {
        Ok((value, rest)) => {
            note(total, bytes, spots, Part::Number(value))?;
            Ok((value, rest))
        }
        Err(error) => Err(stopped(total, bytes, error)),
    }
}

pub(crate) fn walk_integer<'a>(
    total: usize,
    bytes: &'a [u8],
    spots: &mut Vec<Spot>,
) -> Result<(i128, &'a [u8]), WalkError>
    ensures { Walks (λ x. (x.0, x.1.now)) result spots.new.items (item (λ _. Other) total spots.old.items bytes.now (signed_at bytes.now)) }
{
    match signed_of(bytes) {
        Ok((value, rest)) => {
            note(total, bytes, spots, Part::Other)?;
            Ok((value, rest))
        }
        Err(error) => Err(stopped(total, bytes, error)),
    }
}

pub(crate) fn walk_character<'a>(
    total: usize,
    bytes: &'a [u8],
    spots: &mut Vec<Spot>,
) -> Result<(char, &'a [u8]), WalkError>
    ensures { Walks (λ x. (x.0, x.1.now)) result spots.new.items (item Number total spots.old.items bytes.now (character_at bytes.now)) }
{
    match character_of(bytes) {
        Ok((value, rest)) => {
            note(
                total,
                bytes,
                spots,
                Part::Number(u64::from(u32::from(value))),
            )?;
            Ok((value, rest))
        }
        Err(error) => Err(stopped(total, bytes, error)),
    }
}

pub(crate) fn walk_primitive<'a>(
    total: usize,
    bytes: &'a [u8],
    spots: &mut Vec<Spot>,
) -> Result<(u8, &'a [u8]), WalkError>
    ensures { Walks (λ x. (x.0, x.1.now)) result spots.new.items (item Number total spots.old.items bytes.now (primitive_at bytes.now)) }
{
    match primitive_of(bytes) {
        Ok((value, rest)) => {
            note(total, bytes, spots, Part::Number(u64::from(value)))?;
            Ok((value, rest))
        }
        Err(error) => Err(stopped(total, bytes, error)),
    }
}

pub(crate) fn walk_vat<'a>(
    total: usize,
    bytes: &'a [u8],
    spots: &mut Vec<Spot>,
) -> Result<(u8, &'a [u8]), WalkError>
    ensures { Walks (λ x. (x.0, x.1.now)) result spots.new.items (item Vat total spots.old.items bytes.now (vat_at bytes.now)) }
{
    match vat_of(bytes) {
        Ok((value, rest)) => {
            note(total, bytes, spots, Part::Vat(value))?;
            Ok((value, rest))
        }
        Err(error) => Err(stopped(total, bytes, error)),
    }
}

pub(crate) fn walk_swiss<'a>(
    total: usize,
    bytes: &'a [u8],
    spots: &mut Vec<Spot>,
) -> Result<(u128, &'a [u8]), WalkError>
    ensures { Walks (λ x. (x.0, x.1.now)) result spots.new.items (item Swiss total spots.old.items bytes.now (swiss_at bytes.now)) }
{
    match swiss_of(bytes) {
        Ok((value, rest)) => {
            note(total, bytes, spots, Part::Swiss(value))?;
            Ok((value, rest))
        }
        Err(error) => Err(stopped(total, bytes, error)),
    }
}

pub(crate) fn walk_text<'a>(
    total: usize,
    room: usize,
    bytes: &'a [u8],
    spots: &mut Vec<Spot>,
) -> Result<(usize, &'a [u8]), WalkError>
    ensures { Walks (λ x. (x.0, x.1.now)) result spots.new.items (item (λ _. Other) total spots.old.items bytes.now (text_len_at room bytes.now)) }
{
    match text_len_of(room, bytes) {
        Ok((value, rest)) => {
            note(total, bytes, spots, Part::Other)?;
            Ok((value, rest))
        }
        Err(error) => Err(stopped(total, bytes, error)),
    }
}

pub(crate) fn walk_opening<'a>(
    total: usize,
    height: u32,
    room: usize,
    bytes: &'a [u8],
    spots: &mut Vec<Spot>,
) -> Result<(Kind, &'a [u8]), WalkError>
    ensures { Walks (λ x. (x.0, x.1.now)) result spots.new.items (item (λ k. Code (code k)) total spots.old.items bytes.now (opening_at height room bytes.now)) }
{
    match opening_of(height, room, bytes) {
        Ok((value, rest)) => {
            note(total, bytes, spots, Part::Code(code(value)))?;
            Ok((value, rest))
        }
        Err(error) => Err(stopped(total, bytes, error)),
    }
}

pub(crate) fn walk_target<'a>(
    total: usize,
    bytes: &'a [u8],
    spots: &mut Vec<Spot>,
) -> Result<(Kind, &'a [u8]), WalkError>
    ensures { Walks (λ x. (x.0, x.1.now)) result spots.new.items (item (λ k. Code (code k)) total spots.old.items bytes.now (kind_where is_target bytes.now)) }
{
    match target_kind_of(bytes) {
        Ok((value, rest)) => {
            note(total, bytes, spots, Part::Code(code(value)))?;
            Ok((value, rest))
        }
        Err(error) => Err(stopped(total, bytes, error)),
    }
}

pub(crate) fn walk_subject<'a>(
    total: usize,
    bytes: &'a [u8],
    spots: &mut Vec<Spot>,
) -> Result<(Kind, &'a [u8]), WalkError>
    ensures { Walks (λ x. (x.0, x.1.now)) result spots.new.items (item (λ k. Code (code k)) total spots.old.items bytes.now (kind_where is_subject bytes.now)) }
{
    match subject_kind_of(bytes) {
        Ok((value, rest)) => {
            note(total, bytes, spots, Part::Code(code(value)))?;
            Ok((value, rest))
        }
        Err(error) => Err(stopped(total, bytes, error)),
    }
}

fn code(kind: Kind) -> u8
    ensures { result ≡ code kind }
{
    match kind {
        Kind::Null => 0,
        Kind::False => 1,
        Kind::True => 2,
        Kind::Integer => 3,
        Kind::Character => 4,
        Kind::Text => 5,
        Kind::List => 6,
        Kind::Primitive => 7,
        Kind::Broken => 8,
        Kind::YourExport => 9,
        Kind::YourAnswer => 10,
        Kind::MyExport => 11,
        Kind::MyPromise => 12,
        Kind::Third => 13,
        Kind::MyAnswer => 14,
    }
}

/// How many bytes a text of at most so many has.
fn text_len_of(room: usize, bytes: &[u8]) -> Result<(usize, &[u8]), ReadError>
    ensures { Gives (λ x. (x.0, x.1.now)) result (text_len_at room bytes.now) }
{
    let (text, rest) = text_of(room, bytes)?;
    Ok((text.len(), rest))
}

/// The first byte of a description, where so many lists may stand in each other.
fn opening_of(height: u32, room: usize, bytes: &[u8]) -> Result<(Kind, &[u8]), ReadError>
    ensures { Gives (λ x. (x.0, x.1.now)) result (opening_at height room bytes.now) }
{
    let (kind, rest) = kind_of(bytes)?;
    if room > 0 && (!is_list(kind) || height > 0) {
        Ok((kind, rest))
    } else {
        Err(ReadError::Refused)
    }
}

fn is_target(kind: Kind) -> bool
    ensures { result ≡ is_target kind }
{
    match kind {
        Kind::YourExport => true,
        Kind::YourAnswer => true,
        _ => false,
    }
}

fn target_kind_of(bytes: &[u8]) -> Result<(Kind, &[u8]), ReadError>
    ensures { Gives (λ x. (x.0, x.1.now)) result (kind_where is_target bytes.now) }
{
    let (kind, rest) = kind_of(bytes)?;
    if is_target(kind) {
        Ok((kind, rest))
    } else {
        Err(ReadError::Refused)
    }
}

fn is_subject(kind: Kind) -> bool
    ensures { result ≡ is_subject kind }
{
    match kind {
        Kind::MyPromise => true,
        Kind::MyAnswer => true,
        _ => false,
    }
}

fn subject_kind_of(bytes: &[u8]) -> Result<(Kind, &[u8]), ReadError>
    ensures { Gives (λ x. (x.0, x.1.now)) result (kind_where is_subject bytes.now) }
{
    let (kind, rest) = kind_of(bytes)?;
    if is_subject(kind) {
        Ok((kind, rest))
    } else {
        Err(ReadError::Refused)
    }
}

fn op_code_of(bytes: &[u8]) -> Result<(u8, &[u8]), ReadError>
    ensures { Gives (λ x. (x.0, x.1.now)) result (byte_where is_op bytes.now) }
{
    match bytes.split_first() {
        Some((code, rest)) if *code > 0 && *code < 7 => Ok((*code, rest)),
        _ => Err(ReadError::Refused),
    }
}

pub(crate) fn walk_code<'a>(
    total: usize,
    bytes: &'a [u8],
    spots: &mut Vec<Spot>,
) -> Result<(u8, &'a [u8]), WalkError>
    ensures { Walks (λ x. (x.0, x.1.now)) result spots.new.items (item Code total spots.old.items bytes.now (byte_where is_op bytes.now)) }
{
    match op_code_of(bytes) {
        Ok((value, rest)) => {
            note(total, bytes, spots, Part::Code(value))?;
            Ok((value, rest))
        }
        Err(error) => Err(stopped(total, bytes, error)),
    }
}
