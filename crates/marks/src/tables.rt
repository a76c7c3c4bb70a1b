// What a mark may be, for each of its 256 byte values and each way.
use crate::Class;

// Not carried; and outward the start of a request.
const N: Class = Class::NotCarried;

const Q: Class = Class::Request;

// Inward an error, the Escape state, an event, an address, a control block, the end of a transfer, execute, a load and a save.
const R: Class = Class::Error;

const S: Class = Class::State;

const V: Class = Class::Event;

const A: Class = Class::Address;

const B: Class = Class::Block;

const E: Class = Class::End;

const X: Class = Class::Execute;

const L: Class = Class::Load;

const W: Class = Class::Save;

pub static OUTWARD: [Class; 256] = [
    // &00
    Q, N, Q, N, Q, N, Q, N, Q, N, Q, N, Q, N, Q, N,
    // &10
    Q, N, Q, N, Q, N, Q, N, N, N, N, N, N, N, N, N,
    // &20
    Q, N, Q, N, Q, N, Q, N, Q, N, Q, N, Q, N, Q, N,
    // &30
    Q, N, Q, N, Q, N, Q, N, N, N, N, N, N, N, N, N,
    // &40
    Q, N, Q, N, Q, N, Q, N, Q, N, Q, N, Q, N, Q, N,
    // &50
    Q, N, Q, N, Q, N, Q, N, N, N, N, N, N, N, N, N,
    // &60
    Q, N, Q, N, Q, N, Q, N, Q, N, Q, N, Q, N, Q, N,
    // &70
    Q, N, Q, N, Q, N, Q, N, N, N, N, N, N, N, N, N,
    // &80
    N, N, N, N, N, N, N, N, N, N, N, N, N, N, N, N,
    // &90
    N, N, N, N, N, N, N, N, N, N, N, N, N, N, N, N,
    // &A0
    N, N, N, N, N, N, N, N, N, N, N, N, N, N, N, N,
    // &B0
    N, N, N, N, N, N, N, N, N, N, N, N, N, N, N, N,
    // &C0
    N, N, N, N, N, N, N, N, N, N, N, N, N, N, N, N,
    // &D0
    N, N, N, N, N, N, N, N, N, N, N, N, N, N, N, N,
    // &E0
    N, N, N, N, N, N, N, N, N, N, N, N, N, N, N, N,
    // &F0
    N, N, N, N, N, N, N, N, N, N, N, N, N, N, N, N,
];

pub static INWARD: [Class; 256] = [
    // &00
    R, B, B, B, B, B, B, B, B, B, B, B, B, B, B, B,
    // &10
    B, B, B, B, B, B, B, B, B, B, B, B, B, B, B, B,
    // &20
    B, B, B, B, B, B, B, B, B, B, B, B, B, B, B, B,
    // &30
    B, B, B, B, B, B, B, B, B, B, B, B, B, B, B, B,
    // &40
    B, B, B, B, B, B, B, B, B, B, B, B, B, B, B, B,
    // &50
    B, B, B, B, B, B, B, B, B, B, B, B, B, B, B, B,
    // &60
    B, B, B, B, B, B, B, B, B, B, B, B, B, B, B, B,
    // &70
    B, B, B, B, B, B, B, B, B, B, B, B, B, B, B, B,
    // &80
    S, S, S, S, S, S, S, S, S, S, S, S, S, S, S, S,
    // &90
    V, V, V, V, V, V, V, V, V, V, V, N, // &9B, the escape
    V, V, V, V,
    // &A0
    N, N, N, N, N, N, N, N, N, N, N, N, N, N, N, N,
    // &B0
    E, E, E, E, E, E, E, E, E, E, E, E, E, E, E, E,
    // &C0
    A, A, A, A, A, A, A, A, A, A, A, A, A, A, A, A,
    // &D0
    X, X, X, X, X, X, X, X, X, X, X, X, X, X, X, X,
    // &E0
    L, L, L, L, L, L, L, L, L, L, L, L, L, L, L, L,
    // &F0
    W, W, W, W, W, W, W, W, W, W, W, W, W, W, W, W,
];
