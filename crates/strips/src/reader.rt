// Reading strips into layouts, one field after another.
ghost use Rattle.std.specs.Prelude.{◌≡◌, not};
ghost use Rattle.layouts.specs.Layouts.{record_of, digits_of, same_number, none_named};
ghost use Rattle.strips.specs.declared.kind.Kind.TheVariants.{Record};
ghost use Rattle.strips.specs.Layers.{lists_of, layouts_of};
ghost use Rattle.strips.specs.Loads.{and_then, closed, field_from, opened, next_layout, next_field, stepped, width_of, read, Answers};
ghost use Rattle.strips.specs.Readers.{reading_of};
ghost use Rattle.strips.specs.Strips.{kind_of};

use crate::kind::{Kind, body_width, field_at, kind_of, refused};
use crate::load::LoadError;
use crate::open_layout::OpenLayout;
use basics::refusal::Reason;
use lawful::layout::is_lawful;
use layouts::field::Field;
use std::alloc::Global;

// How many layouts a set has at most.
const MOST_LAYOUTS: usize = 8;

// Whether the layout begins with the digits of this U field.
fn has_digits_of(field: Field, layout: &[Field]) -> bool
    ensures { result ≡ same_number (record_of field) (digits_of layout.now) }
{
    match (field, layout) {
        (Field::Record(new), [Field::Record(old), ..]) => new == *old,
        _ => false,
    }
}

// Whether one of the layouts has the digits of this U field.
fn is_used(field: Field, layouts: &[Vec<Field>]) -> bool
    ensures { result ≡ not (none_named (record_of field) (lists_of layouts.now)) }
{
    layouts.iter().any(|layout| has_digits_of(field, layout))
}

// How far reading has come: the finished layouts, and the open one. Each step is handed the letter that
// it reads, its byte and the rest behind it. They are no part of the reader, which keeps none of them.
#[derive(Drop)]
pub struct Reader {
    done: Vec<Vec<Field>>,
    open: OpenLayout,
}

impl Reader {
    // These layouts are finished, and the next is open: its U stands at this byte.
    fn begin(
        done: Vec<Vec<Field>>,
        byte: usize,
        rest: &[u8],
        heap: Global,
    ) -> Result<Reader, LoadError>
        ensures { Answers result reading_of (and_then (field_from byte Record rest.now) (opened byte (layouts_of done))) }
    {
        let field = field_at(Kind::Record, byte, rest)?;
        if done.len() >= MOST_LAYOUTS {
            return Err(refused(Reason::TooManyLayouts, byte).into());
        }
        if is_used(field, &done) {
            return Err(refused(Reason::DigitsUsedBefore, byte).into());
        }
        let open = OpenLayout::new(field, byte, heap)?;
        Ok(Reader { done, open })
    }

    // The layouts, with the open one finished.
    fn close(self) -> Result<Vec<Vec<Field>>, LoadError>
        ensures { Answers result layouts_of (closed (reading_of self)) }
    {
        let Reader { mut done, open } = self;
        if !is_lawful(&open.fields) {
            return Err(refused(Reason::UnlawfulLayout, open.from).into());
        }
        done.push(open.fields)?;
        Ok(done)
    }

    // The U at this byte closes the open layout and begins the next.
    fn next_layout(self, byte: usize, rest: &[u8], heap: Global) -> Result<Reader, LoadError>
        ensures { Answers result reading_of (next_layout byte (reading_of self) rest.now) }
    {
        Reader::begin(self.close()?, byte, rest, heap)
    }

    // The letter at this byte begins one field more of the open layout.
    fn next_field(self, letter: u8, byte: usize, rest: &[u8]) -> Result<Reader, LoadError>
        ensures { Answers result reading_of (next_field byte (reading_of self) letter rest.now) }
    {
        let kind = kind_of(letter).ok_or(refused(Reason::UnknownKind, byte))?;
        let field = field_at(kind, byte, rest)?;
        let Reader { done, open } = self;
        let open = open.add(field)?;
        Ok(Reader { done, open })
    }

    // The letter at this byte is read, and its body at the front of the rest.
    fn step(self, letter: u8, byte: usize, rest: &[u8], heap: Global) -> Result<Reader, LoadError>
        ensures { Answers result reading_of (stepped byte (reading_of self) letter rest.now) }
    {
        if letter == b'U' {
            self.next_layout(byte, rest, heap)
        } else {
            self.next_field(letter, byte, rest)
        }
    }
}

// How many bytes belong to a letter's body.
fn width_after(letter: u8) -> usize
    ensures { result ≡ width_of (kind_of letter) }
{
    kind_of(letter).map_or(0, body_width)
}

// The layouts that the strips write, or the first refusal.
pub(crate) fn read_strips(strips: &[u8], heap: Global) -> Result<Vec<Vec<Field>>, LoadError>
    ensures { Answers result layouts_of (read strips.now) }
{
    let (first, behind) = strips.split_first().ok_or(refused(Reason::NoStrips, 0))?;
    if *first != b'U' {
        return Err(refused(Reason::FirstKindNotRecord, 1).into());
    }
    let mut reader = Reader::begin(Vec::new(heap), 1, behind, heap)?;
    let mut rest = &behind[body_width(Kind::Record)..];
    // A loop and no chain: each field is as wide as its letter says.
    while let Some((letter, behind)) = rest.split_first() {
        let byte = strips.len() - behind.len();
        reader = reader.step(*letter, byte, behind, heap)?;
        rest = &behind[width_after(*letter)..];
    }
    reader.close()
}
