//! Reads tokens with a stack of its own, one step for each token.

ghost use Rattle.std.specs.Prelude.{◌≡◌, ◌<◌, ◌+◌, ℕ, List, length, IfOk, IsTrue, MatchOption, slice_get, Option, ◌∷◌, ◌++◌, [], nat_lt, ◌↔◌};
ghost use Rattle.def_syntax.specs.Heights.{least, most_height, noted, weight};
ghost use Rattle.def_syntax.specs.Grammar.{Tree, ending};
ghost use Rattle.def_syntax.specs.Machine.{State, begin};
ghost use Rattle.ev_parser.specs.Draft.{Came, Comes, Ended, Ends, IsAdded, IsBegun, IsBegunStand, IsCopied, begun_height, IsPut, IsTaken, IsOpened, IsWrapped, Opened, ShowsState, end_shape, lead_part, shape_before, turns_left};
ghost use Rattle.ev_parse_table.specs.Table.{capped};
ghost use Rattle.ev_parser.specs.Parsed.{IsRead};
ghost use Rattle.ev_parser.specs.declared.draft.Turn.TheVariants.{At, Have};
ghost use Rattle.ev_parser.specs.declared.draft.Waiting.{Waiting};

use crate::draft::{Node, Part, Stand, Turn, Waiting};
use crate::frames::Frames;
use def_syntax::{Ending, Line, Move, Place, Shape, Tail, Token, TokenKind, Word};
use ev_parse_table::{
    ending_of, form_of, is_stopping, low_at, more_of, moves_of, once_more, pick_move, tower_at,
    weight_of,
};
use std::alloc::{AllocError, Global};

/// Opens a line: the frames round the node that the token begins, and where that node goes on.
fn open_line(frames: &mut Frames, line: Line, kind: TokenKind) -> Result<Option<Place>, AllocError>
    ensures { IfOk result (λ r. Opened (begin line kind) r frames.old frames.new) }
{
    match form_of(line, kind) {
        Some(place) => Ok(Some(place)),
        None => match tower_at(line) {
            None => Ok(None),
            Some((inner, tail)) => {
                frames.push_after(tail)?;
                let opened = open_line(frames, inner, kind)?;
                Ok(opened)
            }
        },
    }
}

/// The height of a node, or 61 where it is more.
fn node_height(node: &Node) -> u8
    ensures { result ≡ capped (weight node.now.shape + node.now.tallest) }
{
    (weight_of(node.shape) + node.tallest.min(61)).min(61)
}

fn node_at(nodes: &[Node], tree: usize) -> Option<&Node>
    ensures { MatchOption result (slice_get nodes.now tree ≡ None) (λ n. slice_get nodes.now tree ≡ Some n.now) }
{
    nodes.get(tree)
}

/// The node that is being read, with one more token.
fn take(stand: Stand, next: Place, word: Word) -> Result<Stand, AllocError>
    ensures { IfOk result (λ r. IsTaken stand next word r) }
{
    let Stand {
        place: _,
        first,
        parts,
        tallest,
    } = stand;
    let mut parts = parts;
    parts.push(Part::Token(word))?;
    Ok(Stand {
        place: next,
        first,
        parts,
        tallest,
    })
}

/// The node that is being read, with one more tree.
fn put(nodes: &Vec<Node>, stand: Stand, tree: usize) -> Result<Turn, AllocError>
    ensures { IfOk result (λ r. IsPut nodes.now.items stand tree r) }
{
    let Stand {
        place,
        first,
        parts,
        tallest,
    } = stand;
    match node_at(nodes, tree) {
        None => {
            let _ = parts;
            Ok(Turn::Failed)
        }
        Some(node) => {
            let height = node_height(node);
            let mut parts = parts;
            parts.push(Part::Tree(tree))?;
            Ok(Turn::At(Stand {
                place,
                first,
                parts,
                tallest: tallest.max(height),
            }))
        }
    }
}

/// Ends the node that is being read, as this shape with this first token, and gives its number.
fn add_node(
    nodes: &mut Vec<Node>,
    stand: Stand,
    shape: Shape,
    first: Word,
) -> Result<usize, AllocError>
    ensures { IfOk result (λ i. IsAdded nodes.old.items nodes.new.items shape first stand i) }
{
    let Stand {
        place: _,
        first: _,
        parts,
        tallest,
    } = stand;
    let tree = nodes.len();
    nodes.push(Node {
        shape,
        first,
        parts,
        tallest,
    })?;
    Ok(tree)
}

/// The first part, where that is a token.
fn lead_of(parts: &[Part]) -> Word
    ensures { result ≡ lead_part parts.now }
{
    match parts {
        [Part::Token(word), ..] => *word,
        _ => Word {
            kind: TokenKind::LineEnd,
            number: 0,
        },
    }
}

/// What some tokens are read as.
#[derive(Drop)]
pub enum Reading {
    /// The nodes, and the number of the root.
    Tree(Vec<Node>, usize),
    NoSpelling(u64),
    TooNested(u64),
}

/// What has been read of the node is a node of its own, and a token comes behind it.
fn wrap(
    alloc: Global,
    tree: usize,
    shape: Shape,
    first: Word,
    tallest: u8,
    next: Place,
    word: Word,
) -> Result<Stand, AllocError>
    ensures { IfOk result (λ r. IsWrapped tree first tallest shape next word r) }
{
    let mut parts = Vec::new(alloc);
    parts.push(Part::Tree(tree))?;
    parts.push(Part::Token(word))?;
    Ok(Stand {
        place: next,
        first,
        parts,
        tallest: (weight_of(shape) + tallest.min(61)).min(61),
    })
}

/// The first parts of the node behind a tree.
fn begin_parts(
    alloc: Global,
    tail: Tail,
    tree: usize,
    node: &Node,
    word: Word,
) -> Result<Vec<Part>, AllocError>
    ensures { IfOk result (λ parts. IsBegun tail tree node.now word parts.items) }
{
    match tail {
        Tail::Becomes => copied_parts(node, word),
        Tail::BecomesBeforeBlock => copied_parts(node, word),
        _ => {
            let mut parts = Vec::new(alloc);
            parts.push(Part::Tree(tree))?;
            parts.push(Part::Token(word))?;
            Ok(parts)
        }
    }
}

fn copied_parts(node: &Node, word: Word) -> Result<Vec<Part>, AllocError>
    ensures { IfOk result (λ parts. IsCopied node.now word parts.items) }
{
    let mut parts = node.parts.clone()?;
    parts.push(Part::Token(word))?;
    Ok(parts)
}

fn begun_height(tail: Tail, node: &Node) -> u8
    ensures { result ≡ begun_height tail node.now }
{
    match tail {
        Tail::Becomes => node.tallest,
        Tail::BecomesBeforeBlock => node.tallest,
        _ => node_height(node),
    }
}

/// The node behind a tree, which begins with that tree and a token.
fn begin_stand(
    alloc: Global,
    place: Place,
    tail: Tail,
    tree: usize,
    node: &Node,
    word: Word,
) -> Result<Stand, AllocError>
    ensures { IfOk result (λ r. IsBegunStand place tail tree node.now word r) }
{
    let parts = begin_parts(alloc, tail, tree, node, word)?;
    Ok(Stand {
        place,
        first: node.first,
        parts,
        tallest: begun_height(tail, node),
    })
}

/// The node that is being read goes on with a tree of a line, which the token begins.
fn open(
    alloc: Global,
    frames: &mut Frames,
    stand: Stand,
    line: Line,
    next: Place,
    word: Word,
) -> Result<Turn, AllocError>
    ensures { IfOk result (λ r. IsOpened frames.old frames.new stand line next word r) }
{
    let Stand {
        place: _,
        first,
        parts,
        tallest,
    } = stand;
    frames.push_inside(Stand {
        place: next,
        first,
        parts,
        tallest,
    })?;
    let opened = open_line(frames, line, word.kind)?;
    match opened {
        None => Ok(Turn::Failed),
        Some(inner) => Ok(Turn::Moved(Stand {
            place: inner,
            first: word,
            parts: Vec::new(alloc),
            tallest: 0,
        })),
    }
}

/// The shape of the node that ends at a place before a token, or None where it cannot end there.
fn ends_before(place: Place, kind: TokenKind) -> Option<Shape>
    ensures { result ≡ shape_before (ending place) kind }
{
    match ending_of(place) {
        Ending::Never => None,
        Ending::Ends(shape) => Some(shape),
        Ending::BeforeStop(shape) => { if is_stopping(kind) { Some(shape) } else { None } }
    }
}

/// One turn in a node: the token is taken, opens a line, or the node ends before it.
fn turn_at(
    alloc: Global,
    nodes: &mut Vec<Node>,
    frames: &mut Frames,
    stand: Stand,
    word: Word,
) -> Result<Turn, AllocError>
    ensures comes { IfOk result (λ r. (o : Option State) → Comes nodes.old.items frames.old word o (At stand) → Comes nodes.new.items frames.new word o r) }
    ensures less { IfOk result (λ r. turns_left r (length frames.new) < turns_left (At stand) (length frames.old)) }
{
    match pick_move(moves_of(stand.place), word.kind) {
        Some(Move::Takes(_, next)) => {
            let taken = take(stand, next, word)?;
            Ok(Turn::Moved(taken))
        }
        Some(Move::Reads(line, next)) => {
            let opened = open(alloc, frames, stand, line, next, word)?;
            Ok(opened)
        }
        Some(Move::Wraps(_, shape, next)) => {
            let first = stand.first;
            let tallest = stand.tallest;
            let lead = lead_of(&stand.parts);
            let tree = add_node(nodes, stand, shape, lead)?;
            let wrapped = wrap(alloc, tree, shape, first, tallest, next, word)?;
            Ok(Turn::Moved(wrapped))
        }
        None => match ends_before(stand.place, word.kind) {
            None => {
                let _ = stand;
                Ok(Turn::Failed)
            }
            Some(shape) => {
                let first = stand.first;
                let tree = add_node(nodes, stand, shape, first)?;
                Ok(Turn::Have(tree))
            }
        },
    }
}

/// One turn behind a tree: it is a part of the node that waits, or something follows it.
fn turn_have(
    alloc: Global,
    nodes: &Vec<Node>,
    frames: &mut Frames,
    tree: usize,
    word: Word,
) -> Result<Turn, AllocError>
    ensures comes { IfOk result (λ r. (o : Option State) → Comes nodes.now.items frames.old word o (Have tree) → Comes nodes.now.items frames.new word o r) }
    ensures less { IfOk result (λ r. turns_left r (length frames.new) < turns_left (Have tree) (length frames.old)) }
{
    match frames.pop() {
        None => Ok(Turn::Failed),
        Some(Waiting::Inside(stand)) => {
            let turn = put(nodes, stand, tree)?;
            Ok(turn)
        }
        Some(Waiting::After(tail)) => match node_at(nodes, tree) {
            None => Ok(Turn::Failed),
            Some(node) => match more_of(tail, node.shape, word.kind) {
                None => Ok(Turn::Have(tree)),
                Some(place) => {
                    let stand = begin_stand(alloc, place, tail, tree, node, word)?;
                    frames.push_after(once_more(tail))?;
                    Ok(Turn::Moved(stand))
                }
            },
        },
    }
}

/// One step of the machine, by one token: where it stands then, or None where the token cannot follow.
fn advance(
    alloc: Global,
    nodes: &mut Vec<Node>,
    frames: &mut Frames,
    stand: Stand,
    word: Word,
) -> Result<Option<Stand>, AllocError>
    ensures { IfOk result (λ r. (o : Option State) → Comes nodes.old.items frames.old word o (At stand) → Came nodes.new.items frames.new word o r) }
{
    let mut turn = Turn::At(stand);
    'turns: loop {
        turn = match turn {
            Turn::At(here) => turn_at(alloc, nodes, frames, here, word)?,
            Turn::Have(tree) => turn_have(alloc, nodes, frames, tree, word)?,
            Turn::Moved(next) => return Ok(Some(next)),
            Turn::Failed => return Ok(None),
        };
    }
}

/// The node that is being read ends, at the end of the tokens.
fn close_node(nodes: &mut Vec<Node>, stand: Stand) -> Result<Turn, AllocError>
    ensures comes { IfOk result (λ r. (ws : List Waiting) (o : Option Tree) → Ends nodes.old.items ws o (At stand) → Ends nodes.new.items ws o r) }
    ensures less { IfOk result (λ r. (n : ℕ) → turns_left r n < turns_left (At stand) n) }
{
    match shape_at_end(stand.place) {
        None => {
            let _ = stand;
            Ok(Turn::Failed)
        }
        Some(shape) => {
            let first = stand.first;
            let tree = add_node(nodes, stand, shape, first)?;
            Ok(Turn::Have(tree))
        }
    }
}

/// The shape of the node that ends at a place, at the end of the tokens.
fn shape_at_end(place: Place) -> Option<Shape>
    ensures { result ≡ end_shape (ending place) }
{
    match ending_of(place) {
        Ending::Never => None,
        Ending::Ends(shape) => Some(shape),
        Ending::BeforeStop(shape) => Some(shape),
    }
}

/// The tree at the end of the tokens, or None where they are not at the end of one.
fn close(
    nodes: &mut Vec<Node>,
    frames: &mut Frames,
    stand: Stand,
) -> Result<Option<usize>, AllocError>
    ensures { IfOk result (λ r. (o : Option Tree) → Ends nodes.old.items frames.old o (At stand) → Ended nodes.new.items o r) }
{
    let mut turn = Turn::At(stand);
    'turns: loop {
        turn = match turn {
            Turn::At(here) => close_node(nodes, here)?,
            Turn::Have(tree) => match frames.pop() {
                None => return Ok(Some(tree)),
                Some(Waiting::After(_)) => Turn::Have(tree),
                Some(Waiting::Inside(below)) => put(nodes, below, tree)?,
            },
            Turn::Moved(_) => return Ok(None),
            Turn::Failed => return Ok(None),
        };
    }
}

/// Whether each tree that goes on from here is higher than 60.
fn is_high(frames: &Frames, stand: &Stand) -> bool
    ensures { (ns : List Node) (s : State) → ShowsState ns frames.now stand.now s → result ≡ nat_lt most_height (least s) }
{
    frames.lowered(low_at(stand.place, stand.tallest)) > 60
}

/// The first token behind which each tree is higher than 60, if there is one so far.
fn note(high: Option<u64>, number: u64, frames: &Frames, stand: &Stand) -> Option<u64>
    ensures { (ns : List Node) (s : State) → ShowsState ns frames.now stand.now s → result ≡ noted high number s }
{
    match high {
        Some(before) => Some(before),
        None => {
            if is_high(frames, stand) {
                Some(number)
            } else {
                None
            }
        }
    }
}

/// Reads the tree that the tokens spell, or finds the first token behind which there is none, or none that is low enough.
pub fn read(alloc: Global, tokens: &[Token]) -> Result<Reading, AllocError>
    ensures { IfOk result (λ r. IsRead tokens.now r) }
{
    let mut nodes = Vec::new(alloc);
    let mut frames = Frames::new(alloc);
    let mut stand = Stand {
        place: Place::Program,
        first: Word {
            kind: TokenKind::LineEnd,
            number: 0,
        },
        parts: Vec::new(alloc),
        tallest: 0,
    };
    let mut high = None;
    for (i, token) in tokens.iter().enumerate() {
        let number = i as u64;
        let word = Word {
            kind: token.kind,
            number,
        };
        match advance(alloc, &mut nodes, &mut frames, stand, word)? {
            Some(next) => stand = next,
            None => return Ok(Reading::NoSpelling(number)),
        }
        high = note(high, number, &frames, &stand);
    }
    match close(&mut nodes, &mut frames, stand)? {
        Some(root) => match high {
            None => Ok(Reading::Tree(nodes, root)),
            Some(number) => Ok(Reading::TooNested(number)),
        },
        None => Ok(Reading::NoSpelling(tokens.len() as u64)),
    }
}
