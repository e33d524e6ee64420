//! Numbers of pieces that workers draw.

use crate::same;
use head_replay::Claims;
use std::test::Fail;

#[test]
fn three_tickets(rt: HostRuntime) -> Result<(), Fail> {
    let (claims, pass) = Claims::new(rt.alloc(), 3)?;
    let (mut one, mut other) = claims.split(pass);
    let drawn = [
        claims.claim(&mut one),
        claims.claim(&mut other),
        claims.claim(&mut one),
    ];
    same(&rt, "drawn", drawn, [Some(0), Some(1), Some(2)]);
    let again = [
        claims.claim(&mut one),
        claims.claim(&mut other),
        claims.claim(&mut one),
    ];
    same(&rt, "again", again, [None, None, None]);
    let both = claims.join(one, other);
    same(&rt, "closed", claims.close(both), 3);
    Ok(())
}

#[test]
fn two_of_five(rt: HostRuntime) -> Result<(), Fail> {
    let (claims, mut pass) = Claims::new(rt.alloc(), 5)?;
    let drawn = [claims.claim(&mut pass), claims.claim(&mut pass)];
    same(&rt, "drawn", drawn, [Some(0), Some(1)]);
    same(&rt, "closed", claims.close(pass), 2);
    Ok(())
}
