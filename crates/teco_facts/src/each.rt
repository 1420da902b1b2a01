//! Lists that are gone through side by side.
ghost use Rattle.std.specs.Prelude.{◌≡◌, Bool, length};
ghost use Rattle.teco_verifier.specs.facts.Covers as rules;
ghost use Rattle.teco_facts.specs.Each.{each_met, replaced_where};

/// What may cover another: at a target it says no more than the other does on an edge.
pub trait Covers {
    ghost covers: { Self → Self → Bool };

    /// Whether it says no more than another on an edge.
    fn covers(&self, edge: &Self) -> bool
        ensures { result ≡ covers self.now edge.now };
}

/// What may be known on two ways, and is then known where they meet.
pub trait Meets: Copy {
    ghost met: { Self → Self → Self };

    /// What is known where two ways meet.
    fn met(self, other: Self) -> Self
        ensures { result ≡ met self other };
}

/// Whether each item covers its counterpart on an edge, of as many.
pub fn each_covers<T: Covers>(one: &[T], edge: &[T]) -> bool
    ensures { result ≡ rules.each_covers T.covers one.now edge.now }
{
    if one.len() != edge.len() {
        return false;
    }
    for at in (0..one.len()).rev() {
        if !one[at].covers(&edge[at]) {
            return false;
        }
    }
    true
}

/// Each item becomes what is known of it on both ways.
pub fn meet_each<T: Meets>(one: &mut [T], two: &[T])
    requires { length one.old ≡ length two.now }
    ensures value { one.new ≡ each_met T.met one.old two.now }
    ensures long { length one.new ≡ length one.old }
{
    for at in 0..one.len() {
        one[at] = one[at].met(two[at]);
    }
}

/// Items are replaced by another one where others say so.
pub fn replace_where<T: Copy>(items: &mut [T], replaced: &[bool], other: T)
    requires { length items.old ≡ length replaced.now }
    ensures value { items.new ≡ replaced_where other replaced.now items.old }
    ensures long { length items.new ≡ length items.old }
{
    for at in 0..items.len() {
        if replaced[at] {
            items[at] = other;
        }
    }
}
