//! Bounds on the differences of a few symbols.
use crate::numbers::{ceiling, floor, plus};
use crate::units::Units;
use crate::workspace::Workspace;
use teco_linear::{Difference, Form, Term};

// No bound.
pub const NONE: i64 = i64::MAX;

// What symbols are above one another at most: the entry in a row and a column bounds what the row's
// symbol is above the column's. The first row and column are of the number 0.
#[derive(Drop)]
pub struct Bounds {
    symbols: Vec<u32>,
    table: Vec<i64>,
    is_void: bool,
    is_rough: bool,
    // Whether quotients are rounded so that no more is said than multipliers show.
    is_exact: bool,
}

// A form taken once or minus once, without the terms of two symbols.
#[derive(Clone, Copy)]
struct RestOfForm<'a> {
    form: &'a Form,
    is_minus: bool,
    without: [Option<u32>; 2],
}

// What is added up of a part: a number, units that are added, and units that are taken away.
#[derive(Clone, Copy)]
struct Sum {
    number: i64,
    plus: Units,
    minus: Units,
}

impl Sum {
    // Adds a number; says whether the sum fits.
    fn add_number(&mut self, number: i64) -> bool {
        let sum = self.number.checked_add(number);
        self.number = sum.unwrap_or(0);
        sum.is_some()
    }

    // Adds a symbol's units, or takes them away; says whether there is room.
    fn add_units(&mut self, place: usize, times: i64) -> bool {
        if times > 0 {
            self.plus.add(place, times.unsigned_abs())
        } else {
            self.minus.add(place, times.unsigned_abs())
        }
    }
}

impl RestOfForm<'_> {
    fn leaves_out(&self, term: &Term) -> bool {
        let [first, second] = self.without;
        term.symbol.is_some() && (first == term.symbol || second == term.symbol)
    }

    fn coefficient(&self, term: &Term) -> Option<i64> {
        let coefficient = i64::try_from(term.coefficient).ok()?;
        if self.is_minus {
            coefficient.checked_neg()
        } else {
            Some(coefficient)
        }
    }
}

impl Bounds {
    pub fn none(space: &mut Workspace) -> Bounds {
        Bounds {
            symbols: Vec::new(space.alloc),
            table: space.repeated(0, 1),
            is_void: false,
            is_rough: false,
            is_exact: false,
        }
    }

    pub fn copied(&self, space: &mut Workspace) -> Bounds {
        Bounds {
            symbols: space.listed(&self.symbols),
            table: space.listed(&self.table),
            is_void: self.is_void,
            is_rough: self.is_rough,
            is_exact: self.is_exact,
        }
    }

    // Whether nothing is within the bounds.
    pub fn is_void(&self) -> bool {
        self.is_void
    }

    // Whether something was added that is no bound on a difference.
    pub fn is_rough(&self) -> bool {
        self.is_rough
    }

    // Takes no more of what is added than multipliers show.
    pub fn make_exact(&mut self) {
        self.is_exact = true;
    }

    // A quotient of whole numbers as a bound: what is no more than it is no more than its whole part, but
    // multipliers do not show that.
    fn quotient(&self, number: i64, divisor: i64) -> i64 {
        if self.is_exact {
            ceiling(number, divisor)
        } else {
            floor(number, divisor)
        }
    }

    pub fn symbols(&self) -> &[u32] {
        &self.symbols
    }

    pub fn size(&self) -> usize {
        self.symbols.len().saturating_add(1)
    }

    fn index(&self, row: usize, column: usize) -> usize {
        row.saturating_mul(self.size()).saturating_add(column)
    }

    pub fn at(&self, row: usize, column: usize) -> i64 {
        match self.table.get(self.index(row, column)) {
            Some(bound) => *bound,
            None => NONE,
        }
    }

    pub fn set(&mut self, row: usize, column: usize, most: i64) {
        let index = self.index(row, column);
        if let Some(bound) = self.table.get_mut(index) {
            *bound = most;
        }
    }

    // The row of a symbol, or of 0.
    pub fn place(&self, symbol: Option<u32>) -> Option<usize> {
        let Some(symbol) = symbol else {
            return Some(0);
        };
        for at in 0..self.symbols.len() {
            if self.symbols.get(at) == Some(&symbol) {
                return Some(at.saturating_add(1));
            }
        }
        None
    }

    // What one symbol is above another at most.
    pub fn bound(&self, left: Option<u32>, right: Option<u32>) -> i64 {
        match (self.place(left), self.place(right)) {
            (Some(row), Some(column)) => self.at(row, column),
            _ => NONE,
        }
    }

    // The rows of 0 and of these symbols.
    fn rows_of(&self, symbols: &[u32], space: &mut Workspace) -> Vec<usize> {
        let mut rows = Vec::new(space.alloc);
        space.push(&mut rows, 0);
        for symbol in symbols {
            let row = self.place(Some(*symbol)).unwrap_or(usize::MAX);
            space.push(&mut rows, row);
        }
        rows
    }

    // The bounds of these symbols, in this order. There are none of a symbol that has no row.
    pub fn of_symbols(&self, symbols: &[u32], space: &mut Workspace) -> Bounds {
        let rows = self.rows_of(symbols, space);
        let size = rows.len();
        let mut bounds = Bounds {
            symbols: space.listed(symbols),
            table: space.repeated(0, size.saturating_mul(size)),
            is_void: self.is_void,
            is_rough: self.is_rough,
            is_exact: self.is_exact,
        };
        for (row, from) in rows.iter().enumerate() {
            for (column, to) in rows.iter().enumerate() {
                if row != column {
                    bounds.set(row, column, self.at(*from, *to));
                }
            }
        }
        bounds
    }

    // The bounds of a row, where there are so many columns.
    fn row_of(&self, row: usize, size: usize) -> &[i64] {
        let first = row.saturating_mul(size);
        let bounds = self.table.get(first..first.saturating_add(size));
        bounds.unwrap_or(&[])
    }

    // The bounds of a row.
    pub fn row(&self, row: usize) -> &[i64] {
        self.row_of(row, self.size())
    }

    // Adds the symbols of a form that have no row yet; the table is then to be widened.
    fn add_symbols(&mut self, form: &Form, space: &mut Workspace) {
        for symbol in form.terms().iter().filter_map(|term| term.symbol) {
            if !self.symbols.contains(&symbol) {
                space.push(&mut self.symbols, symbol);
            }
        }
    }

    // Makes the rows and the columns of the symbols behind the first ones, of which there were so many.
    fn widen(&mut self, before: usize, space: &mut Workspace) {
        let size = self.size();
        let count = size.saturating_sub(before);
        if count == 0 {
            return;
        }
        let more = space.repeated(NONE, count);
        let mut table = Vec::new(space.alloc);
        for row in 0..before {
            space.extend(&mut table, self.row_of(row, before));
            space.extend(&mut table, &more);
        }
        let rest = space.repeated(NONE, count.saturating_mul(size));
        space.extend(&mut table, &rest);
        self.table = table;
        for row in before..size {
            self.set(row, row, 0);
        }
    }

    // Lowers all bounds by one, in rows that there are. A row stays where the bound does not lower what
    // it is above the second symbol.
    pub fn lower(&mut self, left: usize, right: usize, most: i64) {
        if self.at(left, right) <= most {
            return;
        }
        for row in 0..self.size() {
            let ahead = plus(self.at(row, left), most);
            if ahead < self.at(row, right) {
                self.lower_row(row, right, ahead);
            }
        }
    }

    // Lowers the bounds of a row by way of another.
    fn lower_row(&mut self, row: usize, other: usize, ahead: i64) {
        for column in 0..self.size() {
            let through = plus(ahead, self.at(other, column));
            if through < self.at(row, column) {
                self.set(row, column, through);
                self.is_void = self.is_void || row == column;
            }
        }
    }

    // Lowers each bound by way of all others.
    pub fn close(&mut self) {
        for other in 0..self.size() {
            for row in 0..self.size() {
                let ahead = self.at(row, other);
                if ahead != NONE && row != other {
                    self.lower_row(row, other, ahead);
                }
            }
        }
    }

    // Adds a term to a sum; says whether that may be: it is no product, and of a symbol that is bounded.
    fn add_term(&self, sum: &mut Sum, term: &Term, coefficient: i64) -> bool {
        if term.power > 0 {
            return term.symbol.is_none() && coefficient >= 0;
        }
        match self.place(term.symbol) {
            Some(0) => sum.add_number(coefficient),
            Some(place) => sum.add_units(place, coefficient),
            None => false,
        }
    }

    // What a part adds up, if its units are few and are of symbols that are bounded.
    fn sum(&self, part: &RestOfForm<'_>) -> Option<Sum> {
        let mut sum = Sum {
            number: 0,
            plus: Units::none(),
            minus: Units::none(),
        };
        for term in part.form.terms() {
            if part.leaves_out(term) {
                continue;
            }
            let coefficient = part.coefficient(term)?;
            if !self.add_term(&mut sum, term, coefficient) {
                return None;
            }
        }
        if sum.plus.count().saturating_add(sum.minus.count()) > crate::units::MOST {
            return None;
        }
        Some(sum)
    }

    // What a term is at the least by the bounds of its symbol alone.
    fn least_of_term(&self, term: &Term, coefficient: i64) -> Option<i64> {
        if term.symbol.is_none() {
            let least = if term.power == 0 { coefficient } else { 0 };
            return if least <= coefficient {
                Some(least)
            } else {
                None
            };
        }
        let place = self.place(term.symbol)?;
        let bound = if coefficient > 0 {
            self.at(0, place)
        } else {
            self.at(place, 0)
        };
        if bound == NONE || term.power > 0 {
            return None;
        }
        coefficient.checked_abs()?.checked_mul(bound)?.checked_neg()
    }

    // What a part is at the least by the bounds of each symbol alone.
    fn least_of_each(&self, part: &RestOfForm<'_>) -> Option<i64> {
        let mut least = 0i64;
        for term in part.form.terms() {
            if !part.leaves_out(term) {
                let own = self.least_of_term(term, part.coefficient(term)?)?;
                least = least.checked_add(own)?;
            }
        }
        Some(least)
    }

    // What the units of a sum are at the least where each that is added is set against one that is
    // taken away, or none, as a number says.
    fn least_paired(&self, sum: &Sum, pairing: usize) -> i64 {
        let choices = sum.minus.count().saturating_add(1);
        let mut is_taken = [false; crate::units::MOST];
        let mut above = 0i64;
        let mut rest = pairing;
        for at in 0..sum.plus.count() {
            let choice = rest.checked_rem(choices).unwrap_or(0);
            rest = rest.checked_div(choices).unwrap_or(0);
            let mut other = 0;
            if choice < sum.minus.count() {
                match is_taken.get_mut(choice) {
                    Some(mark) if !*mark => *mark = true,
                    _ => return NONE,
                }
                other = sum.minus.at(choice);
            }
            above = plus(above, self.at(other, sum.plus.at(at)));
        }
        for at in 0..sum.minus.count() {
            if is_taken.get(at) == Some(&false) {
                above = plus(above, self.at(sum.minus.at(at), 0));
            }
        }
        above
    }

    // What a part is at the least.
    fn least_of(&self, part: &RestOfForm<'_>) -> Option<i64> {
        let Some(sum) = self.sum(part) else {
            return self.least_of_each(part);
        };
        let choices = sum.minus.count().saturating_add(1);
        let mut pairings = 1usize;
        for _ in 0..sum.plus.count() {
            pairings = pairings.saturating_mul(choices);
        }
        let mut least_above = NONE;
        for pairing in 0..pairings {
            least_above = least_above.min(self.least_paired(&sum, pairing));
        }
        if least_above == NONE {
            None
        } else {
            sum.number.checked_sub(least_above)
        }
    }

    // What a form is at the least.
    pub fn least(&self, form: &Form) -> Option<i64> {
        self.least_of(&RestOfForm {
            form,
            is_minus: false,
            without: [None, None],
        })
    }

    // What it is at the most.
    pub fn most(&self, form: &Form) -> Option<i64> {
        self.most_without(form, [None, None])
    }

    // What it is at the most without the terms of two symbols.
    fn most_without(&self, form: &Form, without: [Option<u32>; 2]) -> Option<i64> {
        self.least_of(&RestOfForm {
            form,
            is_minus: true,
            without,
        })?
        .checked_neg()
    }

    // Whether a form is at least 0.
    pub fn shows(&self, form: &Form) -> bool {
        self.least(form).is_some_and(|least| least >= 0)
    }

    // Whether a form is above 0.
    pub fn shows_above(&self, form: &Form) -> bool {
        self.least(form).is_some_and(|least| least > 0)
    }

    // Takes it that a form is at least 0.
    pub fn add(&mut self, form: &Form, space: &mut Workspace) {
        let before = self.size();
        self.add_symbols(form, space);
        self.widen(before, space);
        self.add_known(form);
    }

    // Takes it that forms are at least 0.
    pub fn add_all(&mut self, forms: &[Form], space: &mut Workspace) {
        let before = self.size();
        for form in forms {
            self.add_symbols(form, space);
        }
        self.widen(before, space);
        for form in forms {
            self.add_known(form);
        }
    }

    // Takes it of a form whose symbols have rows.
    fn add_known(&mut self, form: &Form) {
        if self.is_void {
            return;
        }
        match Difference::of(form) {
            Some(difference) => self.add_difference(&difference),
            None => self.add_other(form),
        }
    }

    // Takes it of a form that is no difference, if it says something.
    fn add_other(&mut self, form: &Form) {
        if self.shows(form) {
            return;
        }
        if self.most(form).is_some_and(|most| most < 0) {
            self.is_void = true;
        } else {
            self.add_rough(form);
        }
    }

    fn add_difference(&mut self, difference: &Difference) {
        let (Some(left), Some(right)) = (self.place(difference.left), self.place(difference.right))
        else {
            return;
        };
        let most = i64::try_from(difference.most).unwrap_or(NONE);
        if self.at(left, right) <= most {
            return;
        }
        if plus(self.at(right, left), most) < 0 {
            self.is_void = true;
        } else {
            self.lower(left, right, most);
        }
    }

    // Takes of a form that is no difference what it says of each symbol and of pairs.
    fn add_rough(&mut self, form: &Form) {
        self.is_rough = true;
        for term in form.terms() {
            let (Some(_), Some(place)) = (term.symbol, self.place(term.symbol)) else {
                continue;
            };
            if let (Some(most), Ok(times)) = (
                self.most_without(form, [term.symbol, None]),
                i64::try_from(term.coefficient),
            ) {
                if times > 0 {
                    self.lower(0, place, self.quotient(most, times));
                } else if times < 0 {
                    self.lower(place, 0, self.quotient(most, times.saturating_neg()));
                }
            }
            if term.coefficient == 1 {
                self.add_pairs(form, term.symbol, place);
            }
        }
    }

    // Takes what it says of pairs with a symbol.
    fn add_pairs(&mut self, form: &Form, symbol: Option<u32>, place: usize) {
        for other in form.terms() {
            if other.coefficient != -1 || other.symbol.is_none() {
                continue;
            }
            if let (Some(most), Some(above)) = (
                self.most_without(form, [symbol, other.symbol]),
                self.place(other.symbol),
            ) {
                self.lower(above, place, most);
            }
        }
    }
}
