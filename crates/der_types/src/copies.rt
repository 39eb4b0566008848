//! Copies of several values at once, for the `Clone` of a struct. A derived `Clone` returns at each field whose copy
//! fails, after it has dropped the copies before, so that its proof grows with the square of their number. With these
//! functions it doesn't.
ghost use Rattle.std.specs.Prelude.{IfOk};

use std::alloc::AllocError;

/// Copies of two values. The error is a failed allocation.
pub fn two<A: Clone, B: Clone>(a: &A, b: &B) -> Result<(A, B), AllocError>
    ensures { IfOk result (λ it. A.is_clone a.now it.0 × B.is_clone b.now it.1) }
{
    let a = a.clone()?;
    let b = b.clone()?;
    Ok((a, b))
}

/// Copies of three values. The error is a failed allocation.
pub fn three<A: Clone, B: Clone, C: Clone>(a: &A, b: &B, c: &C) -> Result<(A, B, C), AllocError>
    ensures { IfOk result (λ it. A.is_clone a.now it.0 × B.is_clone b.now it.1 × C.is_clone c.now it.2) }
{
    let a = a.clone()?;
    let b = b.clone()?;
    let c = c.clone()?;
    Ok((a, b, c))
}

/// Copies of four values. The error is a failed allocation.
pub fn four<A: Clone, B: Clone, C: Clone, D: Clone>(
    a: &A,
    b: &B,
    c: &C,
    d: &D,
) -> Result<(A, B, C, D), AllocError>
    ensures { IfOk result (λ it. A.is_clone a.now it.0
        × B.is_clone b.now it.1
        × C.is_clone c.now it.2
        × D.is_clone d.now it.3) }
{
    let (a, b) = two(a, b)?;
    let (c, d) = two(c, d)?;
    Ok((a, b, c, d))
}

/// Copies of five values. The error is a failed allocation.
pub fn five<A: Clone, B: Clone, C: Clone, D: Clone, E: Clone>(
    a: &A,
    b: &B,
    c: &C,
    d: &D,
    e: &E,
) -> Result<(A, B, C, D, E), AllocError>
    ensures { IfOk result (λ it. A.is_clone a.now it.0
        × B.is_clone b.now it.1
        × C.is_clone c.now it.2
        × D.is_clone d.now it.3
        × E.is_clone e.now it.4) }
{
    let (a, b, c) = three(a, b, c)?;
    let (d, e) = two(d, e)?;
    Ok((a, b, c, d, e))
}

/// Copies of six values. The error is a failed allocation.
pub fn six<A: Clone, B: Clone, C: Clone, D: Clone, E: Clone, F: Clone>(
    a: &A,
    b: &B,
    c: &C,
    d: &D,
    e: &E,
    f: &F,
) -> Result<(A, B, C, D, E, F), AllocError>
    ensures { IfOk result (λ it. A.is_clone a.now it.0
        × B.is_clone b.now it.1
        × C.is_clone c.now it.2
        × D.is_clone d.now it.3
        × E.is_clone e.now it.4
        × F.is_clone f.now it.5) }
{
    let (a, b, c) = three(a, b, c)?;
    let (d, e, f) = three(d, e, f)?;
    Ok((a, b, c, d, e, f))
}

/// Copies of seven values. The error is a failed allocation.
pub fn seven<A: Clone, B: Clone, C: Clone, D: Clone, E: Clone, F: Clone, G: Clone>(
    a: &A,
    b: &B,
    c: &C,
    d: &D,
    e: &E,
    f: &F,
    g: &G,
) -> Result<(A, B, C, D, E, F, G), AllocError>
    ensures { IfOk result (λ it. A.is_clone a.now it.0
        × B.is_clone b.now it.1
        × C.is_clone c.now it.2
        × D.is_clone d.now it.3
        × E.is_clone e.now it.4
        × F.is_clone f.now it.5
        × G.is_clone g.now it.6) }
{
    let (a, b, c, d) = four(a, b, c, d)?;
    let (e, f, g) = three(e, f, g)?;
    Ok((a, b, c, d, e, f, g))
}

/// Copies of eight values. The error is a failed allocation.
pub fn eight<A: Clone, B: Clone, C: Clone, D: Clone, E: Clone, F: Clone, G: Clone, H: Clone>(
    a: &A,
    b: &B,
    c: &C,
    d: &D,
    e: &E,
    f: &F,
    g: &G,
    h: &H,
) -> Result<(A, B, C, D, E, F, G, H), AllocError>
    ensures { IfOk result (λ it. A.is_clone a.now it.0
        × B.is_clone b.now it.1
        × C.is_clone c.now it.2
        × D.is_clone d.now it.3
        × E.is_clone e.now it.4
        × F.is_clone f.now it.5
        × G.is_clone g.now it.6
        × H.is_clone h.now it.7) }
{
    let (a, b, c, d) = four(a, b, c, d)?;
    let (e, f, g, h) = four(e, f, g, h)?;
    Ok((a, b, c, d, e, f, g, h))
}
