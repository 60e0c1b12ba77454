// Resolving: the destination of a name, of each alias, and of each reference.
ghost use Rattle.std.specs.Prelude.{◌≡◌, ◌*◌, ◌≤◌, ◌<◌, IfSome};
ghost use Rattle.std.proofs.Props.{props};
ghost use Rattle.iterator.specs.Index.{Indexed};
ghost use Rattle.iterator.specs.Resolve.{none, lookup, resolve_aliases, resolve_references};
ghost use Rattle.iterator.specs.Rows.{pairs_of, items_of, hyperlinks_in, destinations_at, aliases_at, put_link, room, SpanWithin, pairs-within-prop};
ghost use Rattle.iterator.specs.Inner.{
  NamesHeld,
  found_of,
  wrap,
  Walking,
  walk_of,
  Tryable,
  steps_left,
  LinksKept,
  AliasesHeld,
  AliasesResolved,
  Keeping,
  kept,
  goal_of,
  ReferencesHeld,
  ReferencesResolved,
};

use crate::index::{EARLIER, LASTS, index_names};
use crate::names::{bucket, same_name};
use crate::records::Strings;
use crate::rows::{LinkKind, LinkRow, PairRow, Table, link_at, put_link};
use restructured_text::Span;

// The names with a destination: the first n rows of their table, with their strings in the work bytes.
#[derive(Clone, Copy)]
struct Names<'a> {
    n: usize,
    numbers: &'a [u32],
    bytes: &'a [u8],
    ghost held: { NamesHeld n numbers.now bytes.now } by { Prim.hlevel (props, pairs-within-prop) },
}

impl<'a> Names<'a> {
    // The destination of a name, the last that was stored under it. The names before row `from` are known to be others, and are not
    // looked at.
    fn destination_of(self, name: &[u8], from: usize) -> Option<Span>
        requires before { from ≤ self.n }
        requires others { lookup name.now (pairs_of from destinations_at self.numbers.now self.bytes.now) ≡ none }
        ensures found { found_of result self.entry.bytes.now ≡ lookup name.now (pairs_of self.entry.n destinations_at self.entry.numbers.now self.entry.bytes.now) }
        ensures within { IfSome result (SpanWithin room) }
    {
        // No `find`: what its closures ask at each turn, that the row stands in the table, did not close over a range in reverse.
        for i in (from..self.n).rev() {
            let row = Table::Destinations.row(i, self.numbers);
            if same_name(row.name.of(self.bytes), name) {
                return Some(row.to);
            }
        }
        None
    }

    // The same, found through the index of the names: only rows of its bucket are looked at, the last of them first.
    fn destination_by_index(self, name: &[u8]) -> Option<Span>
        requires { Indexed self.n self.numbers.now self.bytes.now }
        ensures found { found_of result self.entry.bytes.now ≡ lookup name.now (pairs_of self.entry.n destinations_at self.entry.numbers.now self.entry.bytes.now) }
        ensures within { IfSome result (SpanWithin room) }
    {
        let mut next = (self.numbers[LASTS + bucket(name) as usize] as usize).checked_sub(1);
        // No `for`: each row names the one before it in its bucket.
        while let Some(i) = next {
            let row = Table::Destinations.row(i, self.numbers);
            if same_name(row.name.of(self.bytes), name) {
                return Some(row.to);
            }
            next = (self.numbers[EARLIER + i] as usize).checked_sub(1);
        }
        None
    }

    // The destination of a link: its goal, or, of a reference, what its label has.
    fn goal_of(self, x: LinkRow) -> Option<Span>
        requires indexed { Indexed self.n self.numbers.now self.bytes.now }
        requires within { SpanWithin room x.goal }
        ensures found { found_of result self.entry.bytes.now ≡ goal_of (pairs_of self.entry.n destinations_at self.entry.numbers.now self.entry.bytes.now) self.entry.bytes.now x }
        ensures within { IfSome result (SpanWithin room) }
    {
        match x.kind {
            LinkKind::Reference => self.destination_by_index(x.goal.of(self.bytes)),
            LinkKind::Direct | LinkKind::Rendered => Some(x.goal),
        }
    }
}

// Where the walk through the aliases is: of their table the rows before `passed` and those from `next` to `end` are left; so many were
// missed in a row; so many names have a destination. Of these names the first `known` are no target of an alias from `next` to `end`, and
// the first `fresh` none of an alias before `passed`: their rows need not be looked at again.
#[derive(Clone, Copy, Debug, PartialEq, Eq)]
pub struct Walk {
    pub passed: usize,
    pub next: usize,
    pub end: usize,
    pub misses: usize,
    pub destinations: usize,
    pub known: usize,
    pub fresh: usize,
}

impl Walk {
    // At the end, the first again: those that were passed are ahead now, and none is passed.
    fn wrap(&mut self)
        ensures { self.new ≡ wrap self.old }
    {
        if self.next == self.end {
            self.next = 0;
            self.end = self.passed;
            self.passed = 0;
            self.known = self.fresh;
            self.fresh = self.destinations;
        }
    }

    // Tries the next alias: if its target has a destination, that is stored under the alias's name and the alias is left out; else the
    // alias is passed.
    fn try_alias(&mut self, numbers: &mut [u32], bytes: &[u8])
        requires { Tryable numbers.old bytes.now self.old }
        ensures walk { walk_of numbers.new bytes.now self.new ≡ walk_of numbers.old bytes.now self.old }
        ensures walking { Walking numbers.new bytes.now self.new }
        ensures fewer { steps_left self.new < steps_left self.old }
        ensures links { LinksKept numbers.old numbers.new }
    {
        let x = Table::Aliases.row(self.next, numbers);
        self.next += 1;
        let names = Names {
            n: self.destinations,
            numbers,
            bytes,
        };
        match names.destination_of(x.to.of(bytes), self.known) {
            Some(to) => {
                Table::Destinations.put(self.destinations, PairRow { to, ..x }, numbers);
                self.destinations += 1;
                self.misses = 0;
            }
            None => {
                Table::Aliases.put(self.passed, x, numbers);
                self.passed += 1;
                self.misses += 1;
            }
        }
    }
}

// Resolves the aliases, as many as can be; how many names have a destination then.
pub fn resolve_label2label_references(
    aliases: usize,
    destinations: usize,
    numbers: &mut [u32],
    bytes: &[u8],
) -> usize
    requires { AliasesHeld aliases destinations numbers.old bytes.now }
    ensures resolved { pairs_of result destinations_at numbers.new bytes.now ≡ resolve_aliases (pairs_of aliases aliases_at numbers.old bytes.now) (pairs_of destinations destinations_at numbers.old bytes.now) }
    ensures held { AliasesResolved result numbers.old numbers.new }
{
    let mut walk = Walk {
        passed: 0,
        next: 0,
        end: aliases,
        misses: 0,
        destinations,
        known: 0,
        fresh: destinations,
    };
    // No `for`: it goes round until as many aliases were missed in a row as are left.
    while walk.misses < walk.passed + (walk.end - walk.next) {
        walk.wrap();
        walk.try_alias(numbers, bytes);
    }
    walk.destinations
}

// How many links have a destination, and how many bytes their records take.
#[derive(Clone, Copy, Debug, Default, PartialEq, Eq)]
pub struct Resolved {
    pub links: usize,
    pub size: usize,
}

impl Resolved {
    // Puts a link behind those that have a destination.
    fn keep(&mut self, x: LinkRow, strings: Strings, numbers: &mut [u32])
        requires { Keeping x self.old strings.document.now numbers.old }
        ensures links { self.new ≡ kept x self.old strings.entry.document.now strings.entry.bytes.now }
        ensures row { numbers.new ≡ put_link numbers.old (7 * self.old.links) x }
    {
        put_link(self.links, x, numbers);
        self.links += 1;
        self.size += strings.record_len(x);
    }
}

// Resolves the references, and drops those without a destination.
pub fn resolve_text2label_references(
    n: usize,
    destinations: usize,
    strings: Strings,
    numbers: &mut [u32],
) -> Resolved
    requires { ReferencesHeld n destinations strings.document.now numbers.old strings.bytes.now }
    ensures links { hyperlinks_in result.links strings.entry.document.now numbers.new strings.entry.bytes.now ≡ resolve_references (pairs_of destinations destinations_at numbers.old strings.entry.bytes.now) (items_of n 0 strings.entry.document.now numbers.old strings.entry.bytes.now) }
    ensures held { ReferencesResolved strings.entry.document.now numbers.new strings.entry.bytes.now result }
{
    index_names(destinations, numbers, strings.bytes);
    let mut r = Resolved::default();
    for i in 0..n {
        let x = link_at(i, numbers);
        let names = Names {
            n: destinations,
            numbers,
            bytes: strings.bytes,
        };
        if let Some(goal) = names.goal_of(x) {
            r.keep(LinkRow { goal, ..x }, strings, numbers);
        }
    }
    r
}
