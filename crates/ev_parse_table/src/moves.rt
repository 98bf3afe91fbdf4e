//! The moves at each place.

ghost use Rattle.std.specs.Prelude.{◌≡◌, [], ◌∷◌, true};
ghost use Rattle.def_syntax.specs.Grammar.{behind, caught_shape, closing, definition_shape, ending, item_line, moves, named_shape, parameters, role_shape, value_line};
ghost use Rattle.ev_parse_table.specs.Table.{is_in_definition, is_in_form, is_in_object, listed};

use def_syntax::{
    Caught, Context, Definition, Ending, Head, Line, Move, Moves, Named, Place, Role, Series,
    Shape, TokenKind,
};

/// A list has one member and at most so many more.
pub const MOST_MORE: u8 = 254;

fn item_line(series: Series) -> Line
    ensures { result ≡ item_line series }
{
    match series {
        Series::Parameters => Line::Pattern,
        Series::FunctionParameters => Line::Pattern,
        Series::ToParameters => Line::Pattern,
        Series::MethodParameters => Line::Pattern,
        Series::ListPattern => Line::Pattern,
        Series::Arguments => Line::Expr,
        Series::Members => Line::Expr,
        Series::Index => Line::Expr,
        Series::VerbArguments => Line::Expr,
        Series::SendArguments => Line::Expr,
        Series::GuardArguments => Line::Expr,
    }
}

fn closing_of(series: Series) -> Move
    ensures { result ≡ closing series }
{
    match series {
        Series::Arguments => Move::Takes(TokenKind::CloseParen, Place::Done(Shape::Call)),
        Series::Members => Move::Takes(TokenKind::CloseBracket, Place::Done(Shape::List)),
        Series::Index => Move::Takes(TokenKind::CloseBracket, Place::Done(Shape::Index)),
        Series::VerbArguments => Move::Takes(TokenKind::CloseParen, Place::Done(Shape::VerbCall)),
        Series::SendArguments => Move::Takes(TokenKind::CloseParen, Place::Done(Shape::Send)),
        Series::GuardArguments => Move::Takes(
            TokenKind::CloseBracket,
            Place::Done(Shape::NounGuard),
        ),
        Series::Parameters => Move::Takes(TokenKind::CloseParen, Place::Result),
        Series::FunctionParameters => Move::Reads(Line::Block, Place::Done(Shape::Function)),
        Series::ToParameters => Move::Takes(TokenKind::CloseParen, Place::MemberResult(Role::To)),
        Series::MethodParameters => Move::Takes(
            TokenKind::CloseParen,
            Place::MemberResult(Role::Method),
        ),
        Series::ListPattern => Move::Takes(
            TokenKind::CloseBracket,
            Place::Done(Shape::ListPattern),
        ),
    }
}

fn behind(head: Head) -> Place
    ensures { result ≡ behind head }
{
    match head {
        Head::If => Place::IfThen,
        Head::While => Place::Last(Line::Block, Shape::While),
        Head::When => Place::WhenArrow,
        Head::Via => Place::Last(Line::Pattern, Shape::ViaPattern),
        Head::Group => Place::Done(Shape::Group),
        Head::Guard => Place::Done(Shape::ExprGuard),
    }
}

fn caught_shape(caught: Caught) -> Shape
    ensures { result ≡ caught_shape caught }
{
    match caught {
        Caught::Escape => Shape::Escape,
        Caught::When => Shape::When,
    }
}

fn value_line(context: Context) -> Line
    ensures { result ≡ value_line context }
{
    match context {
        Context::Plain => Line::Expr,
        Context::BeforeBlock => Line::ExprBeforeBlock,
    }
}

fn definition_shape(definition: Definition) -> Shape
    ensures { result ≡ definition_shape definition }
{
    match definition {
        Definition::Def => Shape::Define,
        Definition::Var => Shape::DefineVar,
    }
}

fn named_shape(named: Named) -> Shape
    ensures { result ≡ named_shape named }
{
    match named {
        Named::Noun => Shape::FinalPattern,
        Named::Ignore => Shape::AnyPattern,
    }
}

fn role_shape(role: Role) -> Shape
    ensures { result ≡ role_shape role }
{
    match role {
        Role::To => Shape::To,
        Role::Method => Shape::Method,
    }
}

fn parameters_of(role: Role) -> Series
    ensures { result ≡ parameters role }
{
    match role {
        Role::To => Series::ToParameters,
        Role::Method => Series::MethodParameters,
    }
}

/// One tree comes.
fn reads(line: Line, next: Place) -> Moves
    ensures { listed result ≡ Move.Reads line next ∷ [] }
{
    Moves::One(Move::Reads(line, next))
}

/// One token comes.
fn takes(kind: TokenKind, next: Place) -> Moves
    ensures { listed result ≡ Move.Takes kind next ∷ [] }
{
    Moves::One(Move::Takes(kind, next))
}

/// One of two tokens comes, and the place behind it is the same.
fn takes_either(first: TokenKind, second: TokenKind, next: Place) -> Moves
    ensures { listed result ≡ Move.Takes first next ∷ Move.Takes second next ∷ [] }
{
    Moves::Two(Move::Takes(first, next), Move::Takes(second, next))
}

fn program_moves() -> Moves
    ensures { listed result ≡ moves Place.Program }
{
    Moves::Three(
        Move::Takes(TokenKind::Semicolon, Place::Program),
        Move::Takes(TokenKind::LineEnd, Place::Program),
        Move::Reads(Line::Expr, Place::ProgramMore),
    )
}

fn block_moves() -> Moves
    ensures { listed result ≡ moves Place.Block }
{
    Moves::Four(
        Move::Takes(TokenKind::Semicolon, Place::Block),
        Move::Takes(TokenKind::LineEnd, Place::Block),
        Move::Reads(Line::Expr, Place::BlockMore),
        Move::Takes(TokenKind::CloseBrace, Place::Done(Shape::Block)),
    )
}

fn more_block_moves() -> Moves
    ensures { listed result ≡ moves Place.BlockMore }
{
    Moves::Three(
        Move::Takes(TokenKind::Semicolon, Place::Block),
        Move::Takes(TokenKind::LineEnd, Place::Block),
        Move::Takes(TokenKind::CloseBrace, Place::Done(Shape::Block)),
    )
}

fn first_moves(series: Series) -> Moves
    ensures { listed result ≡ moves (Place.First series) }
{
    Moves::Two(
        Move::Reads(item_line(series), Place::More(MOST_MORE, series)),
        closing_of(series),
    )
}

#[tactic(auto, using(crate::proofs::Tables::more_moves))]
fn more_list_moves(more: u8, series: Series) -> Moves
    ensures { listed result ≡ moves (Place.More more series) }
{
    if more == 0 {
        Moves::One(closing_of(series))
    } else {
        Moves::Two(
            Move::Takes(TokenKind::Comma, Place::Item(more - 1, series)),
            closing_of(series),
        )
    }
}

fn send_moves() -> Moves
    ensures { listed result ≡ moves Place.Send }
{
    Moves::Three(
        Move::Takes(TokenKind::Text, Place::SendOpen),
        Move::Takes(TokenKind::Identifier, Place::SendOpen),
        Move::Takes(TokenKind::OpenParen, Place::First(Series::SendArguments)),
    )
}

/// The moves at a place.
pub fn moves_of(place: Place) -> Moves
    ensures { listed result ≡ moves place }
{
    match place {
        Place::Done(_) => Moves::None,
        Place::Last(line, shape) => reads(line, Place::Done(shape)),
        Place::Program => program_moves(),
        Place::ProgramMore => {
            takes_either(TokenKind::Semicolon, TokenKind::LineEnd, Place::Program)
        }
        Place::Block => block_moves(),
        Place::BlockMore => more_block_moves(),
        Place::Leave => reads(Line::Expr, Place::Done(Shape::Leave)),
        Place::First(series) => first_moves(series),
        Place::Item(more, series) => reads(item_line(series), Place::More(more, series)),
        Place::More(more, series) => more_list_moves(more, series),
        Place::Verb => takes_either(TokenKind::Text, TokenKind::Identifier, Place::VerbOpen),
        Place::VerbOpen => takes(TokenKind::OpenParen, Place::First(Series::VerbArguments)),
        Place::Send => send_moves(),
        Place::SendOpen => takes(TokenKind::OpenParen, Place::First(Series::SendArguments)),
        Place::PatternGuard(shape) => takes(TokenKind::Colon, Place::Last(Line::Guard, shape)),
        Place::VarPattern => {
            takes(
                TokenKind::Identifier,
                Place::PatternGuard(Shape::VarPattern),
            )
        }
        Place::NounGuard => {
            takes(
                TokenKind::OpenBracket,
                Place::Item(MOST_MORE, Series::GuardArguments),
            )
        }
        _ => form_moves(place),
    }
}

fn try_moves() -> Moves
    ensures { listed result ≡ moves Place.TryMore }
{
    Moves::Two(
        Move::Takes(TokenKind::Catch, Place::TryPattern),
        Move::Takes(TokenKind::Finally, Place::Last(Line::Block, Shape::Try)),
    )
}

fn key_moves() -> Moves
    ensures { listed result ≡ moves Place.ForKey }
{
    Moves::Two(
        Move::Takes(TokenKind::FatArrow, Place::ForValue),
        Move::Takes(TokenKind::In, Place::ForList),
    )
}

/// The moves in a form that begins with a word or a parenthesis, and in a definition.
fn form_moves(place: Place) -> Moves
    requires { is_in_form place ≡ true }
    ensures { listed result ≡ moves place }
{
    match place {
        Place::Open(head) => takes(TokenKind::OpenParen, Place::Test(head)),
        Place::Test(head) => reads(Line::Expr, Place::Close(head)),
        Place::Close(head) => takes(TokenKind::CloseParen, behind(head)),
        Place::IfThen => reads(Line::Block, Place::IfElse),
        Place::IfElse => takes(TokenKind::Else, Place::Last(Line::Branch, Shape::If)),
        Place::WhenArrow => takes(TokenKind::Arrow, Place::WhenBlock),
        Place::WhenBlock => reads(Line::Block, Place::Caught(Caught::When)),
        Place::Caught(caught) => takes(TokenKind::Catch, Place::CatchPattern(caught)),
        Place::CatchPattern(caught) => reads(Line::Pattern, Place::CatchBlock(caught)),
        Place::CatchBlock(caught) => reads(Line::Block, Place::Done(caught_shape(caught))),
        Place::Escape => reads(Line::Pattern, Place::EscapeBlock),
        Place::EscapeBlock => reads(Line::Block, Place::Caught(Caught::Escape)),
        Place::Try => reads(Line::Block, Place::TryMore),
        Place::TryMore => try_moves(),
        Place::TryPattern => reads(Line::Pattern, Place::TryBlock),
        Place::TryBlock => reads(Line::Block, Place::TryMore),
        Place::For => reads(Line::Pattern, Place::ForKey),
        Place::ForKey => key_moves(),
        Place::ForValue => reads(Line::Pattern, Place::ForIn),
        Place::ForIn => takes(TokenKind::In, Place::ForList),
        Place::ForList => reads(Line::ExprBeforeBlock, Place::Last(Line::Block, Shape::For)),
        _ => definition_moves(place),
    }
}

fn def_moves(context: Context) -> Moves
    ensures { listed result ≡ moves (Place.Def context) }
{
    Moves::Three(
        Move::Reads(Line::OtherPattern, Place::Bound(context, Definition::Def)),
        Move::Takes(TokenKind::Ignore, Place::Name(context, Named::Ignore)),
        Move::Takes(TokenKind::Identifier, Place::Name(context, Named::Noun)),
    )
}

/// The moves behind `def` and a noun.
fn noun_moves(context: Context) -> Moves
    ensures { listed result ≡ moves (Place.Name context Named.Noun) }
{
    Moves::Six(
        Move::Takes(TokenKind::Colon, Place::NameGuard(context, Named::Noun)),
        Move::Wraps(
            TokenKind::Exit,
            Shape::FinalPattern,
            Place::Exit(context, Definition::Def),
        ),
        Move::Wraps(
            TokenKind::Assign,
            Shape::FinalPattern,
            Place::Value(context, Definition::Def),
        ),
        Move::Takes(TokenKind::OpenParen, Place::First(Series::Parameters)),
        Move::Takes(TokenKind::Implements, Place::Auditor),
        Move::Takes(TokenKind::OpenBrace, Place::Script),
    )
}

/// The moves behind `def` and `_`.
fn ignore_moves(context: Context) -> Moves
    ensures { listed result ≡ moves (Place.Name context Named.Ignore) }
{
    Moves::Five(
        Move::Takes(TokenKind::Colon, Place::NameGuard(context, Named::Ignore)),
        Move::Wraps(
            TokenKind::Exit,
            Shape::AnyPattern,
            Place::Exit(context, Definition::Def),
        ),
        Move::Wraps(
            TokenKind::Assign,
            Shape::AnyPattern,
            Place::Value(context, Definition::Def),
        ),
        Move::Takes(TokenKind::Implements, Place::Auditor),
        Move::Takes(TokenKind::OpenBrace, Place::Script),
    )
}

fn guarded_moves(context: Context, named: Named) -> Moves
    ensures { listed result ≡ moves (Place.NameGuarded context named) }
{
    Moves::Two(
        Move::Wraps(
            TokenKind::Exit,
            named_shape(named),
            Place::Exit(context, Definition::Def),
        ),
        Move::Wraps(
            TokenKind::Assign,
            named_shape(named),
            Place::Value(context, Definition::Def),
        ),
    )
}

fn bound_moves(context: Context, definition: Definition) -> Moves
    ensures { listed result ≡ moves (Place.Bound context definition) }
{
    Moves::Two(
        Move::Takes(TokenKind::Exit, Place::Exit(context, definition)),
        Move::Takes(TokenKind::Assign, Place::Value(context, definition)),
    )
}

fn value_moves(context: Context, definition: Definition) -> Moves
    ensures { listed result ≡ moves (Place.Value context definition) }
{
    reads(
        value_line(context),
        Place::Done(definition_shape(definition)),
    )
}

fn var_moves(context: Context) -> Moves
    ensures { listed result ≡ moves (Place.VarName context) }
{
    Moves::Three(
        Move::Takes(TokenKind::Colon, Place::VarGuard(context)),
        Move::Takes(TokenKind::Exit, Place::Exit(context, Definition::Var)),
        Move::Takes(TokenKind::Assign, Place::Value(context, Definition::Var)),
    )
}

/// The moves in a definition with `:=`, and in an object, a function or a member.
fn definition_moves(place: Place) -> Moves
    requires { is_in_definition place ≡ true }
    ensures { listed result ≡ moves place }
{
    match place {
        Place::Def(context) => def_moves(context),
        Place::Name(context, Named::Noun) => noun_moves(context),
        Place::Name(context, Named::Ignore) => ignore_moves(context),
        Place::NameGuard(context, named) => reads(Line::Guard, Place::NameGuarded(context, named)),
        Place::NameGuarded(context, named) => guarded_moves(context, named),
        Place::Bound(context, definition) => bound_moves(context, definition),
        Place::Exit(context, definition) => reads(Line::Or, Place::Ejector(context, definition)),
        Place::Ejector(context, definition) => {
            takes(TokenKind::Assign, Place::Value(context, definition))
        }
        Place::Value(context, definition) => value_moves(context, definition),
        Place::Var(context) => takes(TokenKind::Identifier, Place::VarName(context)),
        Place::VarName(context) => var_moves(context),
        Place::VarGuard(context) => reads(Line::Guard, Place::Bound(context, Definition::Var)),
        _ => object_moves(place),
    }
}

fn more_auditor_moves() -> Moves
    ensures { listed result ≡ moves Place.AuditorMore }
{
    Moves::Two(
        Move::Takes(TokenKind::Comma, Place::Auditor),
        Move::Takes(TokenKind::OpenBrace, Place::Script),
    )
}

fn script_moves() -> Moves
    ensures { listed result ≡ moves Place.Script }
{
    Moves::Four(
        Move::Takes(TokenKind::Semicolon, Place::Script),
        Move::Takes(TokenKind::LineEnd, Place::Script),
        Move::Reads(Line::Member, Place::Script),
        Move::Takes(TokenKind::CloseBrace, Place::Done(Shape::DefineObject)),
    )
}

fn result_moves() -> Moves
    ensures { listed result ≡ moves Place.Result }
{
    Moves::Three(
        Move::Takes(TokenKind::Colon, Place::ResultGuard),
        Move::Takes(TokenKind::Implements, Place::FunctionAuditor),
        Move::Reads(Line::Block, Place::Done(Shape::DefineFunction)),
    )
}

/// A token comes, or the block of a function.
fn takes_or_block(kind: TokenKind) -> Moves
    ensures { listed result ≡ Move.Takes kind Place.FunctionAuditor ∷ Move.Reads Line.Block (Place.Done Shape.DefineFunction) ∷ [] }
{
    Moves::Two(
        Move::Takes(kind, Place::FunctionAuditor),
        Move::Reads(Line::Block, Place::Done(Shape::DefineFunction)),
    )
}

fn member_moves(role: Role) -> Moves
    ensures { listed result ≡ moves (Place.MemberResult role) }
{
    Moves::Two(
        Move::Takes(TokenKind::Colon, Place::MemberGuard(role)),
        Move::Reads(Line::Block, Place::Done(role_shape(role))),
    )
}

fn member_open_moves(role: Role) -> Moves
    ensures { listed result ≡ moves (Place.MemberOpen role) }
{
    takes(TokenKind::OpenParen, Place::First(parameters_of(role)))
}

fn member_guard_moves(role: Role) -> Moves
    ensures { listed result ≡ moves (Place.MemberGuard role) }
{
    reads(Line::Guard, Place::Last(Line::Block, role_shape(role)))
}

/// The moves in an object, a function or a member.
fn object_moves(place: Place) -> Moves
    requires { is_in_object place ≡ true }
    ensures { listed result ≡ moves place }
{
    match place {
        Place::Auditor => reads(Line::Postfix, Place::AuditorMore),
        Place::AuditorMore => more_auditor_moves(),
        Place::Script => script_moves(),
        Place::Result => result_moves(),
        Place::ResultGuard => reads(Line::Guard, Place::ResultGuarded),
        Place::ResultGuarded => takes_or_block(TokenKind::Implements),
        Place::FunctionAuditor => reads(Line::Postfix, Place::FunctionAuditorMore),
        Place::FunctionAuditorMore => takes_or_block(TokenKind::Comma),
        Place::MemberVerb(role) => {
            takes_either(
                TokenKind::Text,
                TokenKind::Identifier,
                Place::MemberOpen(role),
            )
        }
        Place::MemberOpen(role) => member_open_moves(role),
        Place::MemberResult(role) => member_moves(role),
        Place::MemberGuard(role) => member_guard_moves(role),
        Place::Matcher => reads(Line::Pattern, Place::Last(Line::Block, Shape::Matcher)),
        // There is no such place in an object.
        _ => Moves::None,
    }
}

/// Whether the node may end at a place.
pub fn ending_of(place: Place) -> Ending
    ensures { result ≡ ending place }
{
    match place {
        Place::Done(shape) => Ending::Ends(shape),
        Place::Program => Ending::Ends(Shape::Program),
        Place::ProgramMore => Ending::Ends(Shape::Program),
        Place::Leave => Ending::BeforeStop(Shape::Leave),
        Place::IfElse => Ending::Ends(Shape::If),
        Place::Caught(caught) => Ending::Ends(caught_shape(caught)),
        Place::TryMore => Ending::Ends(Shape::Try),
        Place::PatternGuard(shape) => Ending::Ends(shape),
        Place::NounGuard => Ending::Ends(Shape::NounGuard),
        _ => Ending::Never,
    }
}
