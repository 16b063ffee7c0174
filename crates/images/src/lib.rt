// Where every code leads from every valuation, as one table of sets. The policy and its table of rules are two slices: a rule is handed on as the part of the
// policy that begins with its record.
#![tactic(auto)]

mod deciding;

ghost use Rattle.std.specs.Prelude.{◌≡◌, ◌+◌, ◌*◌, ◌<◌, ◌≤◌, length};
ghost use Rattle.definitions.specs.Policy.{events, variables, rules, requests, width};
ghost use Rattle.definitions.specs.Valuation.{bound, valuations};
ghost use Rattle.policy.specs.Sized.{Passed, TableOf};
ghost use Rattle.policy.specs.Shape.{shape_of};
ghost use Rattle.rules.specs.Arrays.{Tabled, entry_of};
ghost use Rattle.rules.specs.Changes.{Valued};
ghost use Rattle.images.specs.Images.{rule_target, event_from, image_from, Ranked, Prepared, DecidedBy, image_entry, ImagesOf};

use deciding::Rank;
use policy::shape::Shape;
use policy::{header, part, record};
use rules::{effects, matching};
use situation::Situation;

// A policy, and what is made of it once for all valuations.
#[derive(Clone, Copy)]
struct PreparedPolicy<'a> {
    policy: &'a [u8],
    table: &'a [u8],
    // entry j is the bound of variable j
    bounds: &'a [usize],
    // entry r has the rules that match request r
    sets: &'a [u64],
    // entry k is the rank of rule k
    ranks: &'a [Rank],
    ghost has_table: { TableOf policy.now table.now },
    ghost has_arrays: { Prepared policy.now bounds.now sets.now ranks.now },
}

impl<'a> PreparedPolicy<'a> {
    // Entry k is the valuation that carrying out rule k leads to.
    fn fill_targets(self, values: &[usize], targets: &mut [usize])
        requires { Valued self.policy.now values.now × (rules self.policy.now ≤ length targets.old) }
        ensures { Tabled (rules self.entry.policy.now) (rule_target self.entry.policy.now (entry_of values.now)) targets.new }
    {
        let first = 2 * header::fields(self.policy) + 4;
        for k in 0..header::rules(self.policy) {
            let rule = part::rule(self.policy, self.table, k);
            targets[k] = effects::carried_out(self.policy, rule, first, 3, self.bounds, values);
        }
    }

    // Entry e is the set of the one valuation that event e leads to.
    fn fill_events(self, values: &[usize], row: &mut [u64])
        requires { Valued self.policy.now values.now × (events self.policy.now ≤ length row.old) }
        ensures { Tabled (events self.entry.policy.now) (event_from self.entry.policy.now (entry_of values.now)) row.new }
    {
        let changes = part::changes(self.policy, self.table);
        let step = header::variables(self.policy);
        for e in 0..header::events(self.policy) {
            let target = effects::carried_out(
                self.policy,
                changes,
                e * step,
                1,
                self.bounds,
                values,
            );
            row[e] = Situation::EMPTY.with(target).set;
        }
    }

    // Entries 2r and 2r + 1 are where request r leads, accepted and rejected.
    fn fill_decided(self, values: &[usize], row: &mut [u64])
        requires { Valued self.policy.now values.now × (2 * requests self.policy.now ≤ length row.old) }
        ensures { DecidedBy self.entry.policy.now values.now row.new }
    {
        let mut targets = [0usize; 32];
        self.fill_targets(values, &mut targets);
        let enabled = effects::rules_enabled(self.policy, self.table, values);
        deciding::fill_requests(self.sets, enabled, self.ranks, &targets, row);
    }

    // Entry c is where code c leads from v.
    fn fill_row(self, v: usize, row: &mut [u64])
        requires { width self.policy.now ≤ length row.old }
        ensures { Tabled (width self.entry.policy.now) (image_from self.entry.policy.now v) row.new }
    {
        let mut values = [0usize; 4];
        effects::fill_variables(self.policy, self.bounds, v, &mut values);
        self.fill_events(&values, row);
        let first = header::events(self.policy);
        self.fill_decided(&values, &mut row[first..]);
    }

    // Entry v × w + c is where code c leads from valuation v.
    fn fill_rows(self, shape: Shape, images: &mut [u64])
        requires { (shape ≡ shape_of self.policy.now) × (valuations self.policy.now * width self.policy.now ≤ length images.old) }
        ensures { Tabled (valuations self.entry.policy.now * width self.entry.policy.now) (image_entry self.entry.policy.now) images.new }
    {
        let w = shape.width;
        let n = shape.valuations;
        for v in 0..n {
            let at = v * w;
            self.fill_row(v, &mut images[at..]);
        }
    }
}

// Entry k is the rank of rule k.
fn fill_ranks(policy: &[u8], table: &[u8], ranks: &mut [Rank])
    requires { TableOf policy.now table.now × (rules policy.now ≤ length ranks.old) }
    ensures { Ranked policy.now ranks.new }
{
    for k in 0..header::rules(policy) {
        let rule = part::rule(policy, table, k);
        ranks[k] = Rank {
            level: record::level(policy, rule),
            decision: record::decision(policy, rule),
        };
    }
}

// Entry v × w + c is where code c leads from valuation v, of an accepted file.
pub fn fill_images(policy: &[u8], shape: Shape, images: &mut [u64])
    requires { Passed policy.now × (shape ≡ shape_of policy.now) × (valuations policy.now * width policy.now ≤ length images.old) }
    ensures { ImagesOf policy.now images.new }
{
    let mut bounds = [0usize; 4];
    let mut sets = [0u64; 64];
    let mut ranks = [Rank::default(); 32];
    let table = part::rule_table(policy);
    effects::fill_bounds(policy, table, &mut bounds);
    matching::fill_matching(policy, table, &mut sets);
    fill_ranks(policy, table, &mut ranks);
    let q = shape.requests;
    let prepared = PreparedPolicy {
        policy,
        table,
        bounds: &bounds,
        sets: &sets[..q],
        ranks: &ranks,
    };
    prepared.fill_rows(shape, images);
}
