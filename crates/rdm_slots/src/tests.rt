use crate::Slots;
use std::test::Fail;

/// A value that must be spent.
struct Token {
    number: u32,
}

/// Spends a token, if there is one, and gives its number.
fn spend(token: Option<Token>) -> Option<u32> {
    match token {
        Some(Token { number }) => Some(number),
        None => None,
    }
}

#[test]
fn a_place_is_empty_or_has_a_value(rt: HostRuntime) -> Result<(), Fail> {
    let mut slots = Slots::new(rt.alloc(), 1)?;
    assert!(rt; slots.is_empty());
    assert!(rt; !slots.is_full());
    let place = slots.put(Token { number: 7 });
    assert!(rt; place == 0);
    assert!(rt; slots.is_full());
    assert!(rt; !slots.is_empty());
    assert!(rt; slots.get(place).map(|token| token.number) == Some(7));
    if let Some(token) = slots.get_mut(place) {
        token.number = 8;
    }
    assert!(rt; spend(slots.take(place)) == Some(8));
    assert!(rt; slots.get(place).is_none());
    assert!(rt; slots.get_mut(place).is_none());
    assert!(rt; spend(slots.take(place)).is_none());
    assert!(rt; slots.is_empty());
    slots.end();
    Ok(())
}

#[test]
fn values_come_and_go(rt: HostRuntime) -> Result<(), Fail> {
    let mut slots = Slots::new(rt.alloc(), 4)?;
    // The place of each value whose number is this one or one of the three before it.
    let mut places = [0; 4];
    for number in 0..100_u32 {
        let turn = number as usize % 4;
        if slots.is_full() {
            assert!(rt; spend(slots.take(places[turn])) == number.checked_sub(4));
        }
        assert!(rt; !slots.is_full());
        places[turn] = slots.put(Token { number });
        assert!(rt; spend(slots.take(4)).is_none());
        for back in 0..4 {
            if let Some(other) = number.checked_sub(back) {
                let place = places[other as usize % 4];
                assert!(rt; slots.get(place).map(|token| token.number) == Some(other));
            }
        }
    }
    for place in 0..4 {
        assert!(rt; spend(slots.take(place)).is_some());
    }
    assert!(rt; slots.is_empty());
    slots.end();
    Ok(())
}

#[test]
fn there_may_be_no_place(rt: HostRuntime) -> Result<(), Fail> {
    let slots = Slots::<Token>::new(rt.alloc(), 0)?;
    assert!(rt; slots.is_full());
    assert!(rt; slots.is_empty());
    assert!(rt; slots.get(0).is_none());
    slots.end();
    Ok(())
}

#[test]
fn a_size_may_be_too_great(rt: HostRuntime) -> Result<(), Fail> {
    match Slots::<Token>::new(rt.alloc(), usize::MAX) {
        Ok(slots) => {
            slots.end();
            Err(Fail::from("so much memory can't be had"))
        }
        Err(_) => Ok(()),
    }
}
