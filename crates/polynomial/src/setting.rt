// The setting of the problem, which all its polynomials share.
ghost use Rattle.std.specs.Prelude.{◌≡◌, length};
ghost use Rattle.polynomial.specs.Settings.{setting_of};

// The prime, the order by its number in document 01, how many variables, and the weights of x1 to x6.
// Kept: may not change: the order as its number, since `setting` of `opening/specs` gives refusal 2 for a Setting
// with any number but 1 to 3, and the outcomes of runs, reductions and blocks are defined by it.
#[derive(Clone, Copy)]
pub struct Setting {
    pub p: u32,
    pub order: u32,
    pub n: u32,
    pub weights: [u32; 6],
}

// The setting with these weights, of which there are six.
pub fn setting_of(p: u32, order: u32, n: u32, weights: &[u32]) -> Setting
    requires { length weights.now ≡ 6 }
    ensures { result ≡ setting_of p order n weights.now }
{
    let weights = weights.try_into().unwrap();
    Setting {
        p,
        order,
        n,
        weights,
    }
}
