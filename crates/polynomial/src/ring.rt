// The ring that the polynomials of a call lie in.
use monomial::order::Order;

// The order of its monomials, and the prime p that its coefficients are taken modulo.
#[derive(Clone, Copy)]
pub struct Ring {
    pub order: Order,
    pub p: u32,
}
