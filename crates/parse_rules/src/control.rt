ghost use Rattle.std.specs.Prelude.{◌≡◌, ◌≤◌, ◌∷◌, [], IfOk};
ghost use Rattle.grammar_theory.specs.Texts.{Optional};
ghost use Rattle.spec_grammar.proofs.Unrolled.{reads_more};
ghost use Rattle.spec_grammar.specs.Control.{chain_rule, chains_rule, make_chain, node_chain, node_rule, plain_item};
ghost use Rattle.spec_grammar.specs.Parts.{second, symbol_after, the};
ghost use Rattle.spec_grammar.specs.Reading.{reads, reads_as};
ghost use Rattle.spec_grammar.specs.Symbols.{AChain, AControlRule, AHead, AnItem};
ghost use Rattle.spec_grammar.specs.declared.kind.Kind.TheVariants as kinds;
ghost use Rattle.spec_grammar.specs.Gives.{Gives};
ghost use Rattle.parse_rules.specs.inner.Rules.{chains_behind, chains_in, chains_rule_of, node_item, node_item_of, node_rule_of, plain_item_at, root_place};

use crate::pattern::read_application;
use flow_syntax::{Chain, FlowRule, Item, ItemKind, Pattern};
use flow_term::List;
use spec_grammar::{Cursor, Kind, LIMIT, Read, text_of};
use std::alloc::{AllocError, Global};

const PLAIN_ITEMS: [Kind; 6] = [
    Kind::Entry,
    Kind::Exit,
    Kind::Start,
    Kind::End,
    Kind::This,
    Kind::Identifier,
];

const ITEMS: [Kind; 7] = [
    Kind::Entry,
    Kind::Exit,
    Kind::Start,
    Kind::End,
    Kind::This,
    Kind::Identifier,
    Kind::Node,
];

/// A control rule: `node` and a head, or a head with the chains of its control flow, which `root` may stand before.
pub fn read_control_rule<'a>(alloc: Global, cursor: Cursor<'a>, nesting: u64) -> Read<'a, FlowRule>
    requires { nesting ≤ 257 }
    ensures { Gives (λ x. (x.0, x.1.tokens.now)) result (reads nesting AControlRule cursor.entry.tokens.now) }
{
    if nesting > LIMIT {
        return Err(cursor.too_deep(&[Kind::Node, Kind::Root, Kind::Identifier, Kind::Quoted]));
    }
    if cursor.begins(Kind::Node) {
        return read_node_rule(alloc, cursor, nesting);
    }
    read_chains_rule(alloc, cursor, nesting)
}

/// The rule of a node that control passes through.
fn read_node_rule<'a>(alloc: Global, cursor: Cursor<'a>, nesting: u64) -> Read<'a, FlowRule>
    requires { nesting ≤ 256 }
    ensures { Gives (λ x. (x.0, x.1.tokens.now)) result (reads_as nesting node_rule node_rule_of cursor.entry.tokens.now) }
{
    let (node, rest) = cursor.token(Kind::Node, nesting)?;
    let (head, rest) = read_head(alloc, rest, nesting)?;
    let place = node.place;
    let chain = node_chain(alloc, place)?;
    let mut chains = List::new(alloc);
    chains.push(chain)?;
    let rule = FlowRule {
        place,
        root: false,
        head,
        chains,
    };
    Ok((rule, rest))
}

/// The chain `entry -> this -> exit`, whose items have this place.
fn node_chain(alloc: Global, place: u64) -> Result<Chain, AllocError>
    ensures { IfOk result (λ chain. chain ≡ node_chain place) }
{
    let mut items = List::new(alloc);
    items.push(Item {
        place,
        kind: ItemKind::Entry,
    })?;
    items.push(Item {
        place,
        kind: ItemKind::This,
    })?;
    items.push(Item {
        place,
        kind: ItemKind::Exit,
    })?;
    Ok(Chain { items })
}

/// A rule with chains.
fn read_chains_rule<'a>(alloc: Global, cursor: Cursor<'a>, nesting: u64) -> Read<'a, FlowRule>
    requires { nesting ≤ 256 }
    ensures { Gives (λ x. (x.0, x.1.tokens.now)) result (reads_as nesting chains_rule chains_rule_of cursor.entry.tokens.now) }
{
    let (root, rest) = read_root(cursor, nesting)?;
    let (head, rest) = read_head(alloc, rest, nesting)?;
    let (chains, rest) = read_chains(alloc, rest, nesting)?;
    let (place, root) = match root {
        Some(place) => (place, true),
        None => (head.place, false),
    };
    let rule = FlowRule {
        place,
        root,
        head,
        chains,
    };
    Ok((rule, rest))
}

/// The place of the word `root`, where it stands.
fn read_root<'a>(cursor: Cursor<'a>, nesting: u64) -> Read<'a, Option<u64>>
    ensures { Gives (λ x. (x.0, x.1.tokens.now)) result (reads_as nesting (Optional (the kinds.Root)) root_place cursor.entry.tokens.now) }
{
    if !cursor.begins(Kind::Root) {
        return Ok((None, cursor));
    }
    let (root, rest) = cursor.token(Kind::Root, nesting)?;
    Ok((Some(root.place), rest))
}

/// The head of a control rule: a constructor with patterns of its arguments.
pub fn read_head<'a>(alloc: Global, cursor: Cursor<'a>, nesting: u64) -> Read<'a, Pattern>
    requires { nesting ≤ 257 }
    ensures { Gives (λ x. (x.0, x.1.tokens.now)) result (reads nesting AHead cursor.entry.tokens.now) }
{
    if nesting > LIMIT {
        return Err(cursor.too_deep(&[Kind::Identifier, Kind::Quoted]));
    }
    read_application(alloc, cursor, nesting, &[Kind::Identifier, Kind::Quoted])
}

/// An equals sign and chains with commas between them.
fn read_chains<'a>(alloc: Global, cursor: Cursor<'a>, nesting: u64) -> Read<'a, List<Chain>>
    requires { nesting ≤ 256 }
    ensures { Gives (λ x. (x.0, x.1.tokens.now)) result (reads_as nesting chains_behind chains_in cursor.entry.tokens.now) }
{
    let (_, rest) = cursor.token(Kind::Is, nesting)?;
    let (first, rest) = read_chain(alloc, rest, nesting)?;
    let mut chains = List::new(alloc);
    chains.push(first)?;
    read_more_chains(alloc, chains, rest, nesting)
}

/// These chains and further ones, each behind a comma.
fn read_more_chains<'a>(
    alloc: Global,
    mut chains: List<Chain>,
    cursor: Cursor<'a>,
    nesting: u64,
) -> Read<'a, List<Chain>>
    requires { nesting ≤ 256 }
    ensures { Gives (λ x. (x.0, x.1.tokens.now)) result (reads_more nesting (symbol_after kinds.Comma AChain) second chains cursor.entry.tokens.now) }
{
    let mut rest = cursor;
    while rest.begins(Kind::Comma) {
        let (_, after) = rest.token(Kind::Comma, nesting)?;
        let (next, after) = read_chain(alloc, after, nesting)?;
        chains.push(next)?;
        rest = after;
    }
    Ok((chains, rest))
}

/// A chain of two items or more.
fn read_chain<'a>(alloc: Global, cursor: Cursor<'a>, nesting: u64) -> Read<'a, Chain>
    requires { nesting ≤ 257 }
    ensures { Gives (λ x. (x.0, x.1.tokens.now)) result (reads nesting AChain cursor.entry.tokens.now) }
{
    if nesting > LIMIT {
        return Err(cursor.too_deep(&ITEMS));
    }
    read_items(alloc, cursor, nesting)
}

/// Two items or more, with arrows between them.
fn read_items<'a>(alloc: Global, cursor: Cursor<'a>, nesting: u64) -> Read<'a, Chain>
    requires { nesting ≤ 256 }
    ensures { Gives (λ x. (x.0, x.1.tokens.now)) result (reads_as nesting chain_rule make_chain cursor.entry.tokens.now) }
{
    let (first, rest) = read_item(alloc, cursor, nesting)?;
    let (_, rest) = rest.token(Kind::Arrow, nesting)?;
    let (second, rest) = read_item(alloc, rest, nesting)?;
    let mut items = List::new(alloc);
    items.push(first)?;
    items.push(second)?;
    let (items, rest) = read_more_items(alloc, items, rest, nesting)?;
    Ok((Chain { items }, rest))
}

/// These items and further ones, each behind an arrow.
fn read_more_items<'a>(
    alloc: Global,
    mut items: List<Item>,
    cursor: Cursor<'a>,
    nesting: u64,
) -> Read<'a, List<Item>>
    requires { nesting ≤ 256 }
    ensures { Gives (λ x. (x.0, x.1.tokens.now)) result (reads_more nesting (symbol_after kinds.Arrow AnItem) second items cursor.entry.tokens.now) }
{
    let mut rest = cursor;
    while rest.begins(Kind::Arrow) {
        let (_, after) = rest.token(Kind::Arrow, nesting)?;
        let (next, after) = read_item(alloc, after, nesting)?;
        items.push(next)?;
        rest = after;
    }
    Ok((items, rest))
}

/// An item of a chain.
fn read_item<'a>(alloc: Global, cursor: Cursor<'a>, nesting: u64) -> Read<'a, Item>
    requires { nesting ≤ 257 }
    ensures { Gives (λ x. (x.0, x.1.tokens.now)) result (reads nesting AnItem cursor.entry.tokens.now) }
{
    if nesting > LIMIT {
        return Err(cursor.too_deep(&ITEMS));
    }
    if cursor.begins_any(&PLAIN_ITEMS) {
        return read_plain_item(alloc, cursor, nesting);
    }
    read_node_item(alloc, cursor, nesting)
}

/// The item `node` with a name.
fn read_node_item<'a>(alloc: Global, cursor: Cursor<'a>, nesting: u64) -> Read<'a, Item>
    ensures { Gives (λ x. (x.0, x.1.tokens.now)) result (reads_as nesting node_item node_item_of cursor.entry.tokens.now) }
{
    let (node, rest) = cursor.token(Kind::Node, nesting)?;
    let (name, rest) = rest.token(Kind::Identifier, nesting)?;
    let kind = ItemKind::Single(text_of(alloc, name)?);
    let place = node.place;
    Ok((Item { place, kind }, rest))
}

/// An item of one token.
fn read_plain_item<'a>(alloc: Global, cursor: Cursor<'a>, nesting: u64) -> Read<'a, Item>
    ensures { Gives (λ x. (x.0, x.1.tokens.now)) result (reads_as nesting plain_item plain_item_at cursor.entry.tokens.now) }
{
    let (token, kind, rest) = cursor.any_token(&PLAIN_ITEMS, nesting)?;
    let kind = match kind {
        Kind::Entry => ItemKind::Entry,
        Kind::Exit => ItemKind::Exit,
        Kind::Start => ItemKind::Start,
        Kind::End => ItemKind::End,
        Kind::This => ItemKind::This,
        _ => ItemKind::Whole(text_of(alloc, token)?),
    };
    let place = token.place;
    Ok((Item { place, kind }, rest))
}
