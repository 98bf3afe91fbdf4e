//! The form of an object expression, as lists that auditors see.

ghost use Rattle.std.specs.Prelude.{◌≡◌, [], ◌∷◌, IfOk, MatchOption, OnOk, option_map, slice_get};
ghost use Rattle.def_machine.specs.Form.{End};
ghost use Rattle.ev_kernel_printer.specs.Items.{item_in, items_in};
ghost use Rattle.ev_room.specs.Acts.{Gives};
ghost use Rattle.ev_room.specs.Forms.{Builds, behind, build, build_item, formed, make_form, object_form, with_member};

use crate::data::{make_list, text_kept, text_value};
use crate::exit::Exit;
use crate::room::Room;
use ev_base::{ActId, Memory, NodeId, Seq, Value};
use ev_kernel_printer::{Item, Program, as_items};
use std::alloc::Global;
use std::marker::Model;

/// The lists of a form that have begun. Contracts see the innermost first.
#[derive(Drop)]
pub struct Forms {
    lists: Vec<Seq<Value>>,
}

impl Model for Forms {
    ghost use Rattle.std.specs.Prelude.{List, reverse};
    ghost use Rattle.ev_base.specs.declared.values.Value.{Value as Held};

    ghost Value = { List (List Held) };

    ghost view = { λ t. reverse t.lists.items };
}

impl Forms {
    /// None.
    pub fn new(alloc: Global) -> Forms
        ensures { result ≡ [] }
    {
        Forms {
            lists: Vec::new(alloc),
        }
    }

    /// One more, which is now the innermost.
    fn push(&mut self, list: Seq<Value>) -> Result<(), Memory>
        ensures { OnOk result (self.new ≡ list ∷ self.old) }
    {
        self.lists.push(list)?;
        Ok(())
    }

    /// The innermost.
    fn pop(&mut self) -> Option<Seq<Value>>
        ensures { MatchOption result ((self.old ≡ []) × (self.new ≡ [])) (λ list. self.old ≡ list ∷ self.new) }
    {
        self.lists.pop()
    }

    /// A value comes behind those of the innermost.
    #[tactic(auto, unfolding(crate::specs::Forms::with_member))]
    fn add(&mut self, value: Value) -> Result<(), Memory>
        ensures { OnOk result (self.new ≡ with_member value self.old) }
    {
        match self.pop() {
            None => Ok(()),
            Some(list) => {
                let mut list = list;
                list.push(value)?;
                self.push(list)
            }
        }
    }
}

/// Makes the innermost list.
#[tactic(auto, unfolding(crate::specs::Forms::make_form, crate::specs::Acts::fail))]
fn make_form(act: ActId, forms: &mut Forms, room: &mut Room) -> Result<Value, Exit>
    ensures outcome { Gives result room.new (make_form act forms.old room.old) }
    ensures behind { forms.new ≡ behind forms.old }
{
    match forms.pop() {
        None => Err(Exit::Astray),
        Some(list) => make_list(act, list.as_slice(), room),
    }
}

/// A value is the whole, or comes behind those of the innermost list.
#[tactic(auto, unfolding(crate::specs::Forms::formed))]
fn formed(last: bool, value: Value, forms: &mut Forms) -> Result<Option<Value>, Memory>
    ensures { IfOk result (λ whole. (whole, forms.new) ≡ formed last value forms.old) }
{
    if last {
        return Ok(Some(value));
    }
    forms.add(value)?;
    Ok(None)
}

/// The innermost list ends.
#[tactic(auto, using(crate::proofs::Exits::ends), unfolding(crate::specs::Forms::build_item, crate::specs::Acts::opened_acts))]
fn end_form(
    act: ActId,
    last: bool,
    forms: &mut Forms,
    room: &mut Room,
) -> Result<Option<Value>, Exit>
    ensures { Builds result forms.new room.new (build_item act End last forms.old room.old) }
{
    let value = make_form(act, forms, room)?;
    let whole = formed(last, value, forms)?;
    Ok(whole)
}

/// What an item does, which may be the last.
#[tactic(auto, using(crate::proofs::Exits::ends), unfolding(crate::specs::Forms::build_item, crate::specs::Forms::formed, crate::specs::Acts::opened_acts))]
fn build_item(
    act: ActId,
    item: &Item,
    last: bool,
    forms: &mut Forms,
    room: &mut Room,
) -> Result<Option<Value>, Exit>
    ensures { Builds result forms.new room.new (build_item act (item_in item.now) last forms.old room.old) }
{
    match item {
        Item::Begin => {
            forms.push(Seq::new(room.alloc))?;
            Ok(None)
        }
        Item::End => end_form(act, last, forms, room),
        Item::Word(word) => {
            let value = text_value(word.as_str(), room)?;
            forms.add(value)?;
            Ok(None)
        }
        Item::Int(number) => {
            forms.add(Value::Int(*number))?;
            Ok(None)
        }
        Item::Char(letter) => {
            forms.add(Value::Char(*letter))?;
            Ok(None)
        }
        Item::Text(text) => {
            let value = text_kept(text, room)?;
            forms.add(value)?;
            Ok(None)
        }
    }
}

/// The item at a place.
fn item_at(items: &[Item], place: usize) -> Option<&Item>
    ensures { option_map (λ item. item.now) result ≡ slice_get items.now place }
{
    items.get(place)
}

/// Makes the lists of a form, the inner ones first, and gives the whole.
#[tactic(auto, using(crate::proofs::Forming::step_on, crate::proofs::Forming::step_whole, crate::proofs::Forming::step_ends, crate::proofs::Forming::no_more, std::proofs::lemmas::Option::slice_get_within))]
fn build(act: ActId, items: &[Item], room: &mut Room) -> Result<Value, Exit>
    ensures outcome { Gives result room.new (build act (items_in items.now) [] room.old) }
{
    let mut forms = Forms::new(room.alloc);
    let mut place = 0;
    while let Some(item) = item_at(items, place) {
        let last = place + 1 == items.len();
        match build_item(act, item, last, &mut forms, room) {
            Ok(None) => place += 1,
            Ok(Some(whole)) => return Ok(whole),
            Err(exit) => return Err(exit),
        }
    }
    Err(Exit::Astray)
}

/// The form of the object expression at a node, which an activation makes.
#[tactic(auto, using(crate::proofs::Forming::form_gives))]
pub fn object_form(
    program: &Program,
    act: ActId,
    id: NodeId,
    room: &mut Room,
) -> Result<Value, Exit>
    ensures outcome { Gives result room.new (object_form program.now act id room.old) }
{
    let items = as_items(room.alloc, program.tree(), id)?;
    build(act, items.as_slice(), room)
}
