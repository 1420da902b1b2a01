//! Arithmetic on the coefficients of polynomials.
ghost use Rattle.std.specs.Prelude.{◌≡◌, Some};
ghost use Rattle.teco_poly.specs.Polynomial as poly;

// How many coefficients there are: those of the powers 0 to 8.
pub const COEFFICIENTS: usize = 9;

// Coefficients by ascending powers.
pub type Coefficients = [u64; COEFFICIENTS];

// The sum at each power.
pub fn sum(left: &Coefficients, right: &Coefficients) -> Option<Coefficients>
    ensures { result ≡ poly.add left.now right.now }
{
    let mut sums = [0; COEFFICIENTS];
    for power in 0..COEFFICIENTS {
        sums[power] = left[power].checked_add(right[power])?;
    }
    Some(sums)
}

// The difference at each power.
pub fn difference(left: &Coefficients, right: &Coefficients) -> Option<Coefficients>
    ensures { result ≡ poly.sub left.now right.now }
{
    let mut differences = [0; COEFFICIENTS];
    for power in 0..COEFFICIENTS {
        differences[power] = left[power].checked_sub(right[power])?;
    }
    Some(differences)
}

// The greater coefficient at each power.
pub fn greater(left: &Coefficients, right: &Coefficients) -> Coefficients
    ensures { poly.join left.now right.now ≡ Some result }
{
    let mut greater = [0; COEFFICIENTS];
    for power in 0..COEFFICIENTS {
        greater[power] = left[power].max(right[power]);
    }
    greater
}

// The product with a number.
fn scaled(factor: u64, coefficients: &Coefficients) -> Option<Coefficients>
    ensures { result ≡ poly.fitted (poly.scaled factor coefficients.now) }
{
    let mut products = [0; COEFFICIENTS];
    for power in 0..COEFFICIENTS {
        products[power] = coefficients[power].checked_mul(factor)?;
    }
    Some(products)
}

// The product with N. The last coefficient has no place, so it has to be the 0 that becomes the
// constant.
fn raised(coefficients: &Coefficients) -> Option<Coefficients>
    ensures { result ≡ poly.fitted (poly.raised coefficients.now) }
{
    if coefficients[COEFFICIENTS - 1] != 0 {
        return None;
    }
    let mut products = *coefficients;
    products.rotate_right(1);
    Some(products)
}

// The product of a polynomial with `factor` and N times what another one was multiplied to.
fn with_term(factor: u64, right: &Coefficients, product: &Coefficients) -> Option<Coefficients>
    ensures { result ≡ poly.fitted (poly.sum (poly.scaled factor right.now)
        (poly.raised product.now)) }
{
    sum(&scaled(factor, right)?, &raised(product)?)
}

// The product, from the highest power of the left side down.
pub fn product(left: &Coefficients, right: &Coefficients) -> Option<Coefficients>
    ensures { result ≡ poly.mul left.now right.now }
{
    let mut product = [0; COEFFICIENTS];
    for power in (0..COEFFICIENTS).rev() {
        product = with_term(left[power], right, &product)?;
    }
    Some(product)
}

// The value, from the highest power down.
pub fn value(coefficients: &Coefficients, n: u64) -> Option<u64>
    ensures { result ≡ poly.at coefficients.now n }
{
    let mut value = 0u64;
    for power in (0..COEFFICIENTS).rev() {
        value = value.checked_mul(n)?.checked_add(coefficients[power])?;
    }
    Some(value)
}

// Whether no coefficient on the left is above the one on the right.
pub fn is_at_most(left: &Coefficients, right: &Coefficients) -> bool
    ensures { result ≡ poly.is_at_most left.now right.now }
{
    for power in 0..COEFFICIENTS {
        if left[power] > right[power] {
            return false;
        }
    }
    true
}
