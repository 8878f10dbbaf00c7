//! The text of a certificate, and how long it is.
ghost use Rattle.std.specs.Prelude.{◌≡◌, ◌∷◌, ◌++◌, ◌-◌, ◌^◌, IfOk, IfSome, [], codes, length, map, min};
ghost use Rattle.std.specs.Fmt.{decimal, signed_decimal};
ghost use Rattle.std.specs.Option.{option_copied};
ghost use Rattle.flow_types.specs.Feasible.{IsFeasible};
ghost use Rattle.flow_types.specs.Scenario.{parts_of};
ghost use Rattle.flow_types.specs.Trips.{place_at};
ghost use Rattle.text_records.specs.Lines.{field_text};
ghost use Rattle.certificate.specs.Items.{name_at};
ghost use Rattle.certificate.specs.Lines.{bound_number, cut_fields, fields_text, leaf_fields, line_of, row_fields, split_fields, stop_fields, whole_word};
ghost use Rattle.certificate.specs.Put.{Puts};
ghost use Rattle.certificate.specs.Texts.{bound_text, cert_text, count_text, head_text, leaf_text, node_text, plan_text, pool_text, rows_text, tree_text, trips_text};

use crate::certificate::Certificate;
use crate::digest::Digest;
use crate::digits::Digits;
use crate::items::name_at;
use crate::out::{Count, Out, Text};
use branch_tree::{Leaf, TreeNode};
use bytime_model::{Multiplier, RowName};
use cut_rows::CutName;
use flow_types::{Bound, Flight, OutOfMemory, Place, Plan, Scenario, Stop, Trip, place_at};
use plan_rules::cost;
use std::alloc::Global;

// Adds a field.
fn put_field<O: Out>(out: &mut O, word: &[u8]) -> Result<(), O::Error>
    ensures { Puts (O.holds out.old) (O.holds out.new) result (field_text word.now) }
{
    out.put(b",")?;
    out.put(word)
}

// Adds a field that is a number.
fn put_number<O: Out>(out: &mut O, number: u64) -> Result<(), O::Error>
    ensures { Puts (O.holds out.old) (O.holds out.new) result (field_text (decimal number)) }
{
    put_field(out, Digits::of(number.into()).bytes())
}

// Adds a field that is a number below 0, whose size this is.
fn put_negative<O: Out>(out: &mut O, size: u128) -> Result<(), O::Error>
    ensures { Puts (O.holds out.old) (O.holds out.new) result (field_text (45 ∷ decimal size)) }
{
    out.put(b",-")?;
    out.put(Digits::of(size).bytes())
}

// Adds a field that is a number or `none`.
fn put_whole<O: Out>(out: &mut O, number: Option<i128>) -> Result<(), O::Error>
    ensures { Puts (O.holds out.old) (O.holds out.new) result (field_text (whole_word number)) }
{
    match number {
        None => put_field(out, b"none"),
        Some(number) => put_signed(out, number),
    }
}

// Adds a field that is a number, which may be below 0.
fn put_signed<O: Out>(out: &mut O, number: i128) -> Result<(), O::Error>
    ensures { Puts (O.holds out.old) (O.holds out.new) result
        (field_text (signed_decimal number)) }
{
    if number < 0 {
        put_negative(out, number.unsigned_abs())
    } else {
        put_field(out, Digits::of(number.unsigned_abs()).bytes())
    }
}

// Adds the first line: the version, and the digest of the day's text.
fn put_head<O: Out>(out: &mut O, digest: &Digest) -> Result<(), O::Error>
    ensures { Puts (O.holds out.old) (O.holds out.new) result
        (head_text digest.now) }
{
    out.put(b"cert,1")?;
    put_field(out, &digest.digits())?;
    out.put(b"\n")
}

// Adds the line of a word alone.
fn put_bare<O: Out>(out: &mut O, word: &[u8]) -> Result<(), O::Error>
    ensures { Puts (O.holds out.old) (O.holds out.new) result (line_of word.now []) }
{
    out.put(word)?;
    out.put(b"\n")
}

// Adds fields that are nodes, and the line feed.
fn put_nodes<O: Out>(out: &mut O, nodes: &[u16]) -> Result<(), O::Error>
    ensures { Puts (O.holds out.old) (O.holds out.new) result
        (fields_text (map decimal nodes.now)) }
{
    for node in nodes {
        put_number(out, (*node).into())?;
    }
    out.put(b"\n")
}

// Begins the line of a cut: its kind, the word of its family (`v1` of heads, `v2` of nodes apart,
// `v3` of having departed), and the flight.
fn put_cut_begin<O: Out>(out: &mut O, word: &[u8], flight: u32) -> Result<(), O::Error>
    ensures { Puts (O.holds out.old) (O.holds out.new) result
        (codes "cut" ++ (field_text word.now ++ field_text (decimal flight))) }
{
    out.put(b"cut")?;
    put_field(out, word)?;
    put_number(out, flight.into())
}

// Adds the line of a cut of a node.
fn put_node_cut<O: Out>(
    out: &mut O,
    word: &[u8],
    flight: u32,
    node: u16,
    time: u16,
    heads: &[u16],
) -> Result<(), O::Error>
    ensures { Puts (O.holds out.old) (O.holds out.new) result (line_of (codes "cut")
        (word.now ∷ map decimal (flight ∷ node ∷ time ∷ heads.now))) }
{
    put_cut_begin(out, word, flight)?;
    put_number(out, node.into())?;
    put_number(out, time.into())?;
    put_nodes(out, heads)
}

// Adds the line of a cut of nodes that are apart.
fn put_apart_cut<O: Out>(out: &mut O, flight: u32, time: u16, nodes: &[u16]) -> Result<(), O::Error>
    ensures { Puts (O.holds out.old) (O.holds out.new) result (line_of (codes "cut")
        (codes "v2" ∷ map decimal (flight ∷ time ∷ nodes.now))) }
{
    put_cut_begin(out, b"v2", flight)?;
    put_number(out, time.into())?;
    put_nodes(out, nodes)
}

// Adds the line of a cut.
fn put_cut_name<O: Out>(out: &mut O, cut: &CutName) -> Result<(), O::Error>
    ensures { Puts (O.holds out.old) (O.holds out.new) result
        (line_of (codes "cut") (cut_fields cut.now)) }
{
    match cut {
        CutName::Heads {
            flight,
            node,
            time,
            heads,
        } => put_node_cut(out, b"v1", *flight, *node, *time, heads.items()),
        CutName::Apart {
            flight,
            time,
            heads,
        } => put_apart_cut(out, *flight, *time, heads.items()),
        CutName::Departed { flight, node, time } => {
            put_node_cut(out, b"v3", *flight, *node, *time, &[])
        }
    }
}

// Adds the lines of a pool.
fn put_pool<O: Out>(out: &mut O, cuts: &[CutName]) -> Result<(), O::Error>
    ensures { Puts (O.holds out.old) (O.holds out.new) result (pool_text cuts.now) }
{
    for cut in cuts {
        put_cut_name(out, cut)?;
    }
    Ok(())
}

// Adds a split.
fn put_split<O: Out>(
    out: &mut O,
    flight: u32,
    node: u16,
    time: u16,
    cutoff: Option<i64>,
) -> Result<(), O::Error>
    ensures { Puts (O.holds out.old) (O.holds out.new) result
        (line_of (codes "split") (split_fields flight node time cutoff)) }
{
    out.put(b"split")?;
    put_number(out, flight.into())?;
    put_number(out, node.into())?;
    put_number(out, time.into())?;
    put_whole(out, cutoff.map(i128::from))?;
    out.put(b"\n")
}

// Adds the first line of a leaf with rows.
fn put_leaf_line<O: Out>(out: &mut O, word: &[u8], weight: u64, rows: usize) -> Result<(), O::Error>
    ensures { Puts (O.holds out.old) (O.holds out.new) result
        (line_of word.now (leaf_fields weight rows)) }
{
    out.put(word)?;
    put_number(out, weight)?;
    put_number(out, rows as u64)?;
    out.put(b"\n")
}

// Adds the last field of a line, a number.
fn put_last<O: Out>(out: &mut O, number: u64) -> Result<(), O::Error>
    ensures { Puts (O.holds out.old) (O.holds out.new) result
        (fields_text (decimal number ∷ [])) }
{
    put_number(out, number)?;
    out.put(b"\n")
}

// Begins the line of a row: its kind, and the word of the rows that it is one of.
fn put_row_word<O: Out>(out: &mut O, word: &[u8]) -> Result<(), O::Error>
    ensures { Puts (O.holds out.old) (O.holds out.new) result
        (codes "y" ++ field_text word.now) }
{
    out.put(b"y")?;
    put_field(out, word)
}

// Adds the end of the line of a row: the last number of the name, and the multiplier.
fn put_row_end<O: Out>(out: &mut O, number: u32, value: u64) -> Result<(), O::Error>
    ensures { Puts (O.holds out.old) (O.holds out.new) result
        (fields_text (decimal number ∷ decimal value ∷ [])) }
{
    put_number(out, number.into())?;
    put_last(out, value)
}

// Adds the line of a row whose name has two numbers.
fn put_row2<O: Out>(
    out: &mut O,
    word: &[u8],
    first: u32,
    second: u16,
    value: u64,
) -> Result<(), O::Error>
    ensures { Puts (O.holds out.old) (O.holds out.new) result (line_of (codes "y")
        (word.now ∷ decimal first ∷ decimal second ∷ decimal value ∷ [])) }
{
    put_row_word(out, word)?;
    put_number(out, first.into())?;
    put_row_end(out, second.into(), value)
}

// Adds the line of a row whose name has three numbers.
fn put_row3<O: Out>(
    out: &mut O,
    word: &[u8],
    first: u32,
    second: u16,
    third: u16,
    value: u64,
) -> Result<(), O::Error>
    ensures { Puts (O.holds out.old) (O.holds out.new) result (line_of (codes "y")
        (word.now ∷ decimal first ∷ decimal second ∷ decimal third ∷ decimal value ∷ [])) }
{
    put_row_word(out, word)?;
    put_number(out, first.into())?;
    put_number(out, second.into())?;
    put_row_end(out, third.into(), value)
}

// Adds the line of the row of a cut, by its position.
fn put_cut<O: Out>(out: &mut O, index: u32, value: u64) -> Result<(), O::Error>
    ensures { Puts (O.holds out.old) (O.holds out.new) result
        (line_of (codes "y") (codes "cut" ∷ decimal index ∷ decimal value ∷ [])) }
{
    put_row_word(out, b"cut")?;
    put_row_end(out, index, value)
}

// Adds the line of a row of a leaf.
fn put_row<O: Out>(out: &mut O, multiplier: &Multiplier) -> Result<(), O::Error>
    ensures { Puts (O.holds out.old) (O.holds out.new) result
        (line_of (codes "y") (row_fields multiplier.now)) }
{
    let value = multiplier.value;
    match multiplier.row {
        RowName::Mono { flight, node, time } => {
            put_row3(out, b"mono", flight, node, time, value)
        }
        RowName::Top { flight, node } => put_row2(out, b"top", flight, node, value),
        RowName::Dep { place, period } => put_row2(out, b"dep", place, period, value),
        RowName::Arr { place, period } => put_row2(out, b"arr", place, period, value),
        RowName::Sector { place, period } => put_row2(out, b"sector", place, period, value),
        RowName::Occupy { flight, node, time } => {
            put_row3(out, b"occupy", flight, node, time, value)
        }
        RowName::Enter { flight, node, time } => {
            put_row3(out, b"enter", flight, node, time, value)
        }
        RowName::Leave { flight, node } => put_row2(out, b"leave", flight, node, value),
        RowName::Connect { connection, period } => {
            put_row2(out, b"connect", connection, period, value)
        }
        RowName::Cut { index } => put_cut(out, index, value),
    }
}

// Adds the lines of the rows of a leaf.
fn put_rows<O: Out>(out: &mut O, rows: &[Multiplier]) -> Result<(), O::Error>
    ensures { Puts (O.holds out.old) (O.holds out.new) result (rows_text rows.now) }
{
    for multiplier in rows {
        put_row(out, multiplier)?;
    }
    Ok(())
}

// Adds the lines of a leaf with rows.
fn put_leaf_rows<O: Out>(
    out: &mut O,
    word: &[u8],
    weight: u64,
    rows: &[Multiplier],
) -> Result<(), O::Error>
    ensures { Puts (O.holds out.old) (O.holds out.new) result
        (line_of word.now (leaf_fields weight (length rows.now)) ++ rows_text rows.now) }
{
    put_leaf_line(out, word, weight, rows.len())?;
    put_rows(out, rows)
}

// Adds the lines of a leaf.
fn put_leaf<O: Out>(out: &mut O, leaf: &Leaf) -> Result<(), O::Error>
    ensures { Puts (O.holds out.old) (O.holds out.new) result (leaf_text leaf.now) }
{
    match leaf {
        Leaf::Empty => put_bare(out, b"empty"),
        Leaf::Unit => put_bare(out, b"unit"),
        Leaf::Dual { weight, rows } => put_leaf_rows(out, b"dual", *weight, rows.items()),
        Leaf::Lag { weight, rows } => put_leaf_rows(out, b"lag", *weight, rows.items()),
    }
}

// Adds the lines of a node.
fn put_node<O: Out>(out: &mut O, node: &TreeNode) -> Result<(), O::Error>
    ensures { Puts (O.holds out.old) (O.holds out.new) result (node_text node.now) }
{
    match node {
        TreeNode::Leaf(leaf) => put_leaf(out, leaf),
        TreeNode::Split {
            flight,
            node,
            time,
            cutoff,
        } => put_split(out, *flight, *node, *time, *cutoff),
    }
}

// Adds the lines of a tree.
fn put_tree<O: Out>(out: &mut O, nodes: &[TreeNode]) -> Result<(), O::Error>
    ensures { Puts (O.holds out.old) (O.holds out.new) result (tree_text nodes.now) }
{
    for node in nodes {
        put_node(out, node)?;
    }
    Ok(())
}

// Adds the fields of a stop of the flight.
fn put_stop<O: Out>(
    out: &mut O,
    places: &[Place],
    flight: &Flight,
    stop: Stop,
) -> Result<(), O::Error>
    ensures { Puts (O.holds out.old) (O.holds out.new) result
        (field_text (name_at places.now (place_at flight.now stop.node))
        ++ field_text (decimal stop.time)) }
{
    put_field(out, name_at(places, place_at(flight, stop.node)))?;
    put_number(out, stop.time.into())
}

// Adds the fields of the stops of the flight, and the line feed.
fn put_stops<O: Out>(
    out: &mut O,
    places: &[Place],
    flight: &Flight,
    stops: &[Stop],
) -> Result<(), O::Error>
    ensures { Puts (O.holds out.old) (O.holds out.new) result
        (fields_text (stop_fields places.now flight.now stops.now)) }
{
    for stop in stops {
        put_stop(out, places, flight, *stop)?;
    }
    out.put(b"\n")
}

// Adds the line of a trip of the flight.
fn put_trip<O: Out>(
    out: &mut O,
    places: &[Place],
    flight: &Flight,
    stops: &[Stop],
) -> Result<(), O::Error>
    ensures { Puts (O.holds out.old) (O.holds out.new) result
        (line_of (codes "trip") (flight.now.name ∷ stop_fields places.now flight.now stops.now)) }
{
    out.put(b"trip")?;
    put_field(out, flight.name.items())?;
    put_stops(out, places, flight, stops)
}

// Adds a line for each flight's trip.
fn put_trips<O: Out>(
    out: &mut O,
    places: &[Place],
    flights: &[Flight],
    trips: &[Trip],
) -> Result<(), O::Error>
    ensures { Puts (O.holds out.old) (O.holds out.new) result
        (trips_text places.now flights.now trips.now) }
{
    for at in 0..flights.len().min(trips.len()) {
        put_trip(out, places, &flights[at], trips[at].items())?;
    }
    Ok(())
}

// Adds the line of the plan's cost, and its trips.
fn put_plan<O: Out>(out: &mut O, s: &Scenario, plan: Option<&Plan>) -> Result<(), O::Error>
    requires { IfSome (option_copied plan) (IsFeasible (parts_of s.now)) }
    ensures { Puts (O.holds out.old) (O.holds out.new) result
        (plan_text (parts_of s.now) (option_copied plan.entry)) }
{
    match plan {
        None => put_number_line(out, b"plan", None),
        Some(plan) => {
            put_number_line(out, b"plan", Some(cost(s, plan).into()))?;
            put_trips(out, s.places(), s.flights(), plan.items())
        }
    }
}

// Adds a line of a word and a number, or `none`.
fn put_number_line<O: Out>(out: &mut O, word: &[u8], number: Option<i128>) -> Result<(), O::Error>
    ensures { Puts (O.holds out.old) (O.holds out.new) result
        (line_of word.now (whole_word number ∷ [])) }
{
    out.put(word)?;
    put_whole(out, number)?;
    out.put(b"\n")
}

// The number of a bound, none where there is no plan.
fn bound_number(bound: Bound) -> Option<i128>
    ensures { result ≡ bound_number bound }
{
    match bound {
        Bound::NoPlan => None,
        Bound::AtLeast(least) => Some(least),
    }
}

// Adds the lines behind the tree: the plan, the bound, and how many nodes the tree has.
fn put_claim<O: Out>(
    out: &mut O,
    s: &Scenario,
    certificate: &Certificate<'_>,
) -> Result<(), O::Error>
    requires { IfSome certificate.now.plan (IsFeasible (parts_of s.now)) }
    ensures { Puts (O.holds out.old) (O.holds out.new) result
        (plan_text (parts_of s.now) certificate.now.plan
        ++ (bound_text certificate.now.bound ++ count_text (length certificate.now.tree))) }
{
    put_plan(out, s, certificate.plan)?;
    put_number_line(out, b"bound", bound_number(certificate.bound))?;
    put_count(out, certificate.tree.items().len())
}

// Adds the whole text.
fn put_certificate<O: Out>(
    out: &mut O,
    s: &Scenario,
    certificate: &Certificate<'_>,
) -> Result<(), O::Error>
    requires { IfSome certificate.now.plan (IsFeasible (parts_of s.now)) }
    ensures { Puts (O.holds out.old) (O.holds out.new) result
        (cert_text (parts_of s.now) certificate.now) }
{
    put_head(out, &certificate.digest)?;
    put_pool(out, certificate.pool.items())?;
    put_tree(out, certificate.tree.items())?;
    put_claim(out, s, certificate)
}

// Adds the last line: how many nodes the tree has.
fn put_count<O: Out>(out: &mut O, nodes: usize) -> Result<(), O::Error>
    ensures { Puts (O.holds out.old) (O.holds out.new) result
        (count_text nodes) }
{
    out.put(b"end")?;
    put_last(out, nodes as u64)
}

/// The text of a certificate for the scenario, whose plan, if there is one, keeps every rule. It is
/// read back where it has at most 1 GiB and its numbers and rows are as `specs/Writable` says. It
/// takes memory for the text, in blocks that grow by doubling.
pub fn cert_text(
    alloc: Global,
    s: &Scenario,
    certificate: &Certificate<'_>,
) -> Result<Vec<u8>, OutOfMemory>
    requires { IfSome certificate.now.plan (IsFeasible (parts_of s.now)) }
    ensures { IfOk result
        (λ text. text.items ≡ cert_text (parts_of s.now) certificate.now) }
{
    let mut out = Text::new(alloc);
    put_certificate(&mut out, s, certificate)?;
    Ok(out.into_bytes())
}

/// How many bytes the text of a certificate for the scenario has, whose plan, if there is one,
/// keeps every rule; the last number of 64 bits where there are more. It takes no memory.
pub fn cert_length(s: &Scenario, certificate: &Certificate<'_>) -> u64
    requires { IfSome certificate.now.plan (IsFeasible (parts_of s.now)) }
    ensures { result
        ≡ min (length (cert_text (parts_of s.now) certificate.now)) (2 ^ 64 - 1) }
{
    let mut out = Count::new();
    match put_certificate(&mut out, s, certificate) {
        Ok(()) => out.bytes(),
        Err(never) => match never {},
    }
}
