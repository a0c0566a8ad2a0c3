use super::*;
use arrayvec::ArrayVec;
use command_words::Mrw;
use speed_bin::{RefreshMode, Settings};
use std::test::Fail;

const SMALL: Settings = Settings {
    rows: 16,
    ath: 5,
    eth: 3,
    raaimt: 8,
    raammt: 16,
    refresh: RefreshMode::All,
    ecs_every: 0,
};

const LARGE: Settings = Settings {
    rows: 65536,
    ath: 1023,
    eth: 513,
    raaimt: 255,
    raammt: 256,
    refresh: RefreshMode::Same,
    ecs_every: 255,
};

fn held_after(writes: &ArrayVec<Mrw, 8>) -> Result<Option<Settings>, RegisterFault> {
    let mut registers = Registers::new();
    for write in writes.iter() {
        registers.apply(*write)?;
    }
    Ok(registers.settings())
}

#[test]
fn settings_are_told_and_read_back(rt: HostRuntime) -> Result<(), Fail> {
    let told = writes(&SMALL);
    let values = [15, 0, 5, 3, 0, 8, 16, 0];
    for (k, write) in told.iter().enumerate() {
        assert!(rt; k < 8);
        assert_eq!(rt; write.address as usize, 64 + k);
        assert_eq!(rt; write.value, values[k]);
    }
    assert_eq!(rt; told.len(), 8);
    assert!(rt; held_after(&told)? == Some(SMALL));
    let told = writes(&LARGE);
    assert_eq!(rt; told.len(), 8);
    assert_eq!(rt; told[1].value, 255);
    assert_eq!(rt; told[4].value, 0x5b);
    assert!(rt; held_after(&told)? == Some(LARGE));
    Ok(())
}

#[test]
fn bad_writes_are_refused(rt: HostRuntime) {
    let mut registers = Registers::new();
    let past = Mrw {
        address: 72,
        value: 1,
    };
    assert!(rt; registers.apply(past) == Err(RegisterFault::NoRegister));
    let high = Mrw {
        address: 68,
        value: 0x80,
    };
    assert!(rt; registers.apply(high) == Err(RegisterFault::BadValue));
    let few = Mrw {
        address: 69,
        value: 7,
    };
    assert!(rt; registers.apply(few) == Err(RegisterFault::BadValue));
    assert!(rt; registers == Registers::new());
    assert!(rt; registers.settings() == None);
}

#[test]
fn each_fault_has_its_number(rt: HostRuntime) {
    let rows = [(RegisterFault::NoRegister, 1), (RegisterFault::BadValue, 2)];
    for (fault, number) in rows {
        assert_eq!(rt; number, fault as u8);
    }
}
