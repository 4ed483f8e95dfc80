//! The Montgomery ladder (RFC 7748, 5). No branch and no index depends on the scalar or on the point.
ghost use Rattle.std.specs.Prelude.{◌≡◌, ℕ, ◌%◌, ◌<◌};
ghost use Rattle.curve25519.specs.Field.{prime};
ghost use Rattle.curve25519.specs.Encoding.{decode_little_endian};
ghost use Rattle.curve25519.specs.X25519.{LadderState as DefinedState, initial_state, ladder_step, ladder, scalar_multiplication};
ghost use Rattle.x25519.specs.Elements.{value};
ghost use Rattle.x25519.specs.States.{Represents};

use crate::arithmetic::{conditional_swap, difference, product, small, small_product, square, sum};
use crate::element::Element;
use crate::encoding::scalar_bit;
use crate::inverse::inverse;
use crate::state::LadderState;

/// The state before the first step.
fn initial_state(u: Element) -> LadderState
    ensures { (x_1 : ℕ) → value u % prime ≡ x_1 % prime → Represents result (initial_state x_1) }
{
    let one = small(1);
    let zero = small(0);
    LadderState {
        x_2: one,
        z_2: zero,
        x_3: u,
        z_3: one,
        swap: 0,
    }
}

/// A step, of the bit `k_t` of the scalar.
fn ladder_step(u: Element, k_t: u64, state: LadderState) -> LadderState
    requires { k_t < 2 }
    ensures { (x_1 : ℕ) (defined : DefinedState) → value u % prime ≡ x_1 % prime → Represents state defined →
        Represents result (ladder_step x_1 k_t defined) }
{
    let swap = state.swap ^ k_t;
    let (x_2, x_3) = conditional_swap(swap, state.x_2, state.x_3);
    let (z_2, z_3) = conditional_swap(swap, state.z_2, state.z_3);
    let a = sum(x_2, z_2);
    let aa = square(a);
    let b = difference(x_2, z_2);
    let bb = square(b);
    let e = difference(aa, bb);
    let c = sum(x_3, z_3);
    let d = difference(x_3, z_3);
    let da = product(d, a);
    let cb = product(c, b);
    let da_and_cb = sum(da, cb);
    let da_less_cb = difference(da, cb);
    let da_less_cb_squared = square(da_less_cb);
    let a24_times_e = small_product(121_665, e);
    let aa_and_more = sum(aa, a24_times_e);
    let new_x_3 = square(da_and_cb);
    let new_z_3 = product(u, da_less_cb_squared);
    let new_x_2 = product(aa, bb);
    let new_z_2 = product(e, aa_and_more);
    LadderState {
        x_2: new_x_2,
        z_2: new_z_2,
        x_3: new_x_3,
        z_3: new_z_3,
        swap: k_t,
    }
}

/// The state after the steps of all 255 bits, the highest of them first.
fn ladder(scalar: &[u8; 32], u: Element) -> LadderState
    ensures { (x_1 : ℕ) → value u % prime ≡ x_1 % prime →
        Represents result (ladder (decode_little_endian scalar.now) x_1 255 (initial_state x_1)) }
{
    let mut state = initial_state(u);
    'bits: for i in 0..255usize {
        let k_t = scalar_bit(scalar, 254 - i);
        state = ladder_step(u, k_t, state);
    }
    state
}

/// The u-coordinate of the scalar times a point, of which u is the u-coordinate.
pub fn scalar_multiplication(scalar: &[u8; 32], u: Element) -> Element
    ensures { (x_1 : ℕ) → value u % prime ≡ x_1 % prime →
        value result % prime ≡ scalar_multiplication (decode_little_endian scalar.now) x_1 % prime }
{
    let state = ladder(scalar, u);
    let (x_2, _x_3) = conditional_swap(state.swap, state.x_2, state.x_3);
    let (z_2, _z_3) = conditional_swap(state.swap, state.z_2, state.z_3);
    let inverse_of_z_2 = inverse(z_2);
    product(x_2, inverse_of_z_2)
}
