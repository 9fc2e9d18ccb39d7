use crate::tests::compared::same;
use crate::tests::record::sale;
use crate::tests::rows::answers;
use crate::tests::told::{refusal_told, whole};
use fm_base::Refusal;
use fm_lanes::ValueKind;
use fm_layout::Layout;
use fm_records_query::{Asked, Condition, Item, Query, check_record, parse_list, parse_query};
use std::alloc::{AllocError, Global};

/// The item's text, and what it asks: a fold, of which offset, and over how many open indices.
fn item_told(alloc: Global, item: &Item) -> Result<String, AllocError> {
    let text = item.text.as_str();
    match &item.asked {
        Asked::Count => format!(in alloc; "; {text}: Count"),
        Asked::Of(fold, path) => {
            let (offset, open) = (path.offset(), path.dims().len());
            format!(in alloc; "; {text}: {fold:?} {offset} {open}")
        }
    }
}

/// The condition's text, and what it says: an operator, a literal, and the value's offset.
fn condition_told(alloc: Global, condition: &Condition) -> Result<String, AllocError> {
    let text = condition.text.as_str();
    let (operator, literal) = (condition.operator, condition.literal);
    let offset = condition.path.offset();
    format!(in alloc; "; {text}: {operator:?} {literal} {offset}")
}

/// Each item and each condition of the query.
fn parts_told(alloc: Global, query: &Query) -> Result<String, AllocError> {
    let mut told = String::new(alloc);
    for item in query.items() {
        told.push_str(&item_told(alloc, item)?)?;
    }
    for condition in query.conditions() {
        told.push_str(&condition_told(alloc, condition)?)?;
    }
    Ok(told)
}

/// A record's size and alignment, how many items and conditions the query has, and each of them.
fn query_told(alloc: Global, query: &Query) -> String {
    let (size, alignment) = (query.record_size(), query.record_alignment());
    let (items, conditions) = (query.items().len(), query.conditions().len());
    let parts = whole(alloc, parts_told(alloc, query));
    whole(
        alloc,
        format!(in alloc; "{size} {alignment} {items} {conditions}{parts}"),
    )
}

/// The query of this text over the sales.
fn read(alloc: Global, text: &str) -> Result<Query, Refusal> {
    let layout = sale(alloc)?;
    check_record(&layout)?;
    parse_query(alloc, text, &layout)
}

/// What the query says, or how its refusal is printed.
fn told(alloc: Global, query: Result<Query, Refusal>) -> String {
    match query {
        Ok(query) => query_told(alloc, &query),
        Err(refusal) => refusal_told(alloc, refusal),
    }
}

/// What the query of this text over the sales says.
fn read_told(alloc: Global, text: &str) -> String {
    told(alloc, read(alloc, text))
}

#[test]
fn reads_items(rt: HostRuntime) {
    let text = "count,sum(.price),list(.tags[]) where .kind>=2";
    let wanted =
        "24 8 3 1; count: Count; sum(.price): Sum 8 0; list(.tags[]): All 16 1; .kind>=2: AtLeast 2 4";
    same(&rt, read_told(rt.alloc(), text).as_str(), wanted);
}

#[test]
fn reads_conditions(rt: HostRuntime) {
    let wanted = "24 8 1 1; count: Count; .kind>=2: AtLeast 2 4";
    same(
        &rt,
        read_told(rt.alloc(), "count where .kind>=2").as_str(),
        wanted,
    );
}

/// A query of two folds and five conditions.
const EACH: &str =
    "min(.price),max(.#4[3:-1]) where .id=0 and .id!=-1 and .id<-9223372036854775808 and .id<=10 \
     and .kind>9223372036854775807";

/// What it says.
const EACH_TOLD: &str =
    "24 8 2 5; min(.price): Least 8 0; max(.#4[3:-1]): Greatest 19 1; .id=0: Equal 0 0; .id!=-1: NotEqual -1 0; \
     .id<-9223372036854775808: Below -9223372036854775808 0; .id<=10: AtMost 10 0; \
     .kind>9223372036854775807: Above 9223372036854775807 4";

#[test]
fn reads_each_fold_and_operator(rt: HostRuntime) {
    same(&rt, read_told(rt.alloc(), EACH).as_str(), EACH_TOLD);
}

const ITEMS_16: &str =
    "count,count,count,count,count,count,count,count,count,count,count,count,count,count,count,count";

const CONDITIONS_16: &str =
    "count where .id=0 and .id=0 and .id=0 and .id=0 and .id=0 and .id=0 and .id=0 and .id=0 \
     and .id=0 and .id=0 and .id=0 and .id=0 and .id=0 and .id=0 and .id=0 and .id=0";

/// How many items and conditions the query of this text has.
fn counts(alloc: Global, text: &str) -> Result<(usize, usize), Refusal> {
    let query = read(alloc, text)?;
    Ok((query.items().len(), query.conditions().len()))
}

#[test]
fn reads_sixteen_of_each(rt: HostRuntime) {
    same(&rt, counts(rt.alloc(), ITEMS_16), Ok((16, 0)));
    same(&rt, counts(rt.alloc(), CONDITIONS_16), Ok((1, 16)));
}

/// Texts that are none, and behind the refusal's number how many bytes of it some query's text begins with.
const NO_TEXTS: &str = "\
count, -> 50 6
 -> 50 0
sum(.tags[01]) -> 50 11
x -> 50 0
mon(.id) -> 50 1
maxi -> 50 3
count\x20 -> 50 6
count where -> 50 11
count  where .id=0 -> 50 6
count, sum(.id) -> 50 6
sum() -> 50 4
sum(.id -> 50 7
sum(.id)) -> 50 8
sum(.id= -> 50 7
count where .id -> 50 15
count where .id) -> 50 15
count where .id!0 -> 50 16
count where .id==0 -> 50 16
count where .id<= -> 50 17
count where .id<==0 -> 50 17
count where .id=+1 -> 50 16
count where .id=-0 -> 50 17
count where .id=- -> 50 17
count where .id=00 -> 50 17
count where .id=9223372036854775808 -> 50 34
count where .id=-9223372036854775809 -> 50 35
count where .id=1 or .id=2 -> 50 18
count where .id=1  and .id=2 -> 50 18
count where .id=1 and\x20 -> 50 22
count where .id=1 an -> 50 20
count where .id=1,count -> 50 17
count\u{e9} -> 50 5
count,count,count,count,count,count,count,count,count,count,count,count,count,count,count,count,count -> 50 95
count where .id=0 and .id=0 and .id=0 and .id=0 and .id=0 and .id=0 and .id=0 and .id=0 and .id=0 and .id=0 and .id=0 and .id=0 and .id=0 and .id=0 and .id=0 and .id=0 and .id=0 -> 50 167";

#[test]
fn refuses_at_the_longest_prefix(rt: HostRuntime) {
    answers(&rt, rt.alloc(), read_told, NO_TEXTS);
}

/// Queries whose paths are refused, and how the refusal that comes first is printed.
const BAD_PATHS: &str = "\
sum(.nope) -> 31 0
sum(.id.x) -> 30 1
sum(.kind[0]) -> 32 1
sum(.tags[4]) -> 33 1
sum(.tags) -> 35
sum(.tags[0:0]) -> 36 1
count where .tags[]=1 -> 34 1
count where .tags[0:2]=1 -> 34 1
count where .tags[].x=1 -> 30 2
count where .tags[]=1 and .nope=1 -> 34 1
count where .nope=1 and .tags[]=1 -> 31 0
count,sum(.id.x),sum(.nope) where .tags[]=1 -> 30 1
sum(.nope),count where .id=x -> 50 27";

#[test]
fn refuses_paths_in_their_order(rt: HostRuntime) {
    answers(&rt, rt.alloc(), read_told, BAD_PATHS);
}

/// Whether records can be of what was made.
fn checked(made: Result<Layout, Refusal>) -> Result<(), Refusal> {
    check_record(&made?)
}

#[test]
fn checks_records(rt: HostRuntime) {
    let alloc = rt.alloc();
    same(&rt, checked(sale(alloc)), Ok(()));
    let empty = Layout::structure(Vec::new(alloc));
    same(&rt, checked(empty), Err(Refusal::NoSize));
    let ragged = Layout::value(ValueKind::Int).with_alignment(8);
    same(&rt, checked(ragged), Err(Refusal::ElementRagged));
}

/// The query that lists the values of this path of the sales.
fn list(alloc: Global, text: &str) -> Result<Query, Refusal> {
    let layout = sale(alloc)?;
    check_record(&layout)?;
    parse_list(alloc, text, &layout)
}

/// What that query says, or how its refusal is printed.
fn list_told(alloc: Global, text: &str) -> String {
    told(alloc, list(alloc, text))
}

/// Paths, and the queries that list their values.
const LISTS: &str = "\
.tags[] -> 24 8 1 0; list(.tags[]): All 16 1
 -> 50 0
.tags[]=1 -> 50 7
list(.id) -> 50 0
.nope -> 31 0
.tags -> 35";

#[test]
fn lists_the_values_of_a_path(rt: HostRuntime) {
    answers(&rt, rt.alloc(), list_told, LISTS);
}
