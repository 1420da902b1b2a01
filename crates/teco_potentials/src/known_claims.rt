//! Claims that are known besides facts.
use std::alloc::Global;
use teco_bounds::forms::at_forms;
use teco_bounds::workspace::Workspace;
use teco_linear::Form;

// Claims with coefficients above this are not used to find others.
const PLAIN: u128 = 100;

// What is claimed at keys besides facts, and what of it is used to find more: forms over the places
// of measures, by the key.
#[derive(Drop)]
pub struct KnownClaims {
    pub claims: Vec<(usize, Form)>,
    pub told: Vec<(usize, Form)>,
    // The places of the turns, numbers and lengths of which a bound was sought.
    pub sought: Vec<u32>,
    // How many rows programs may still go through.
    pub work: usize,
}

// Whether all coefficients of a form are small.
pub fn is_plain(form: &Form) -> bool {
    form.terms().iter().all(|term| term.symbol.is_none()
        || term.coefficient.unsigned_abs() <= PLAIN)
}

impl KnownClaims {
    pub fn new(work: usize, alloc: Global) -> KnownClaims {
        KnownClaims {
            claims: Vec::new(alloc),
            told: Vec::new(alloc),
            sought: Vec::new(alloc),
            work,
        }
    }

    // Takes work from what is left.
    pub fn spend(&mut self, work: usize) {
        self.work = self.work.saturating_sub(work);
    }

    // Whether this is claimed at a key already.
    fn has(&self, key: usize, claim: &Form) -> bool {
        self.claims.iter().any(|(place, known)| *place == key && known.terms() == claim.terms())
    }

    // What is used at a key, where measures are given by forms.
    pub fn at(&self, key: usize, forms: &[Option<Form>], space: &mut Workspace) -> Vec<Form> {
        let mut all = Vec::new(space.alloc);
        for (place, claim) in &self.told {
            if *place == key {
                let form = at_forms(claim, forms, space);
                space.push(&mut all, form);
            }
        }
        all
    }

    // Takes what is used at a key to find more: a claim, or in its stead a bound, if it is not plain.
    fn tell(&mut self, key: usize, claim: &Form, bound: Option<&Form>, space: &mut Workspace) {
        let used = if is_plain(claim) {
            Some(claim)
        } else {
            bound.filter(|bound| !bound.is_harmless())
        };
        if let Some(form) = used {
            let copy = space.copied(form);
            space.push(&mut self.told, (key, copy));
        }
    }

    // Takes what is claimed at each key besides. In the stead of a claim that is not plain a bound is
    // used. Nothing is taken where the search is to stop.
    pub fn add(&mut self, claims: Vec<Form>, bounds: &[Form], space: &mut Workspace) {
        if space.is_stopped() {
            return;
        }
        for (key, claim) in claims.into_iter().enumerate() {
            if key == 0 || claim.is_harmless() || self.has(key, &claim) {
                continue;
            }
            self.tell(key, &claim, bounds.get(key), space);
            space.push(&mut self.claims, (key, claim));
        }
    }
}
