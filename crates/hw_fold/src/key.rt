//! What a net does, in short.
use crate::passing::root_of;
use hw_net::{Frame, Net, NetKind, NetOp};

/// Odd, with its bits far from a pattern.
const MULTIPLIER: u64 = 0x9E37_79B9_7F4A_7C15;

/// What a net does on which nets, in short: equal for nets that do the same, and seldom for others.
#[derive(Clone, Copy, PartialEq, Eq, PartialOrd, Ord)]
pub struct Key {
    hash: u64,
    value: i128,
}

impl Key {
    /// The key with a number more.
    fn with(self, number: u64) -> Key {
        let mixed = (self.hash ^ number).wrapping_mul(MULTIPLIER);
        Key {
            hash: mixed ^ (mixed >> 29),
            value: self.value,
        }
    }

    /// The key with a number of many bits, of which it has one alone.
    fn valued(self, value: i128) -> Key {
        Key {
            hash: self.hash,
            value,
        }
    }

    /// The key with what stands for nets that are read.
    fn reading(self, list: &[u32], roots: &[u32]) -> Key {
        let mut key = self;
        for net in list {
            key = key.with(u64::from(root_of(*net, roots)));
        }
        key
    }

    /// The key with a frame.
    fn framed(self, frame: Frame) -> Key {
        self.with(u64::from(frame.period)).with(frame.latency)
    }

    /// The key with an operation.
    fn operating(self, op: NetOp) -> Key {
        match op {
            NetOp::Input(number) => self.with(6).with(u64::from(number)),
            NetOp::Const(value) => self.with(7).valued(value),
            NetOp::Resize => self.with(8),
            NetOp::ShiftUp(places) => self.with(9).with(u64::from(places)),
            NetOp::ShiftDown(places) => self.with(10).with(u64::from(places)),
            NetOp::Add => self.with(11),
            NetOp::Subtract => self.with(12),
            NetOp::Negate => self.with(13),
            NetOp::Multiply => self.with(14),
            NetOp::And => self.with(15),
            NetOp::Or => self.with(16),
            NetOp::Xor => self.with(17),
            NetOp::Not => self.with(18),
            NetOp::Less => self.with(19),
            NetOp::Equal => self.with(20),
            NetOp::Choose => self.with(21),
            NetOp::Slice { high, low } => self.with(22).with(u64::from(high)).with(u64::from(low)),
        }
    }
}

/// The key of a net's word.
fn key_of_word(net: &Net) -> Key {
    let start = Key { hash: 0, value: 0 };
    start.with(u64::from(net.width)).with(u64::from(net.signed))
}

/// The key of the constant 0 or 1 in a net's word.
pub fn key_of_bit(net: &Net, bit: bool) -> Key {
    key_of_word(net).operating(NetOp::Const(i128::from(bit)))
}

/// The key of a net.
pub fn key_of(net: &Net, roots: &[u32]) -> Key {
    let word = key_of_word(net);
    match &net.kind {
        NetKind::Comb { op, args } => word.operating(*op).reading(args.as_slice(), roots),
        NetKind::Reg {
            frame,
            slot,
            first,
            from,
        } => {
            let key = word
                .with(1)
                .framed(*frame)
                .with(u64::from(*slot))
                .valued(*first);
            key.reading(&[*from], roots)
        }
        NetKind::EnReg {
            frame,
            enable,
            reset,
            first,
            from,
        } => {
            let key = word
                .with(2)
                .framed(*frame)
                .with(u64::from(*reset))
                .valued(*first);
            key.reading(&[*enable, *from], roots)
        }
        NetKind::Acc {
            frame,
            enable,
            from,
        } => word
            .with(23)
            .framed(*frame)
            .reading(&[*enable, *from], roots),
        NetKind::Bridge { frame, live, from } => {
            let key = word.with(3).framed(*frame).with(u64::from(*live));
            key.reading(&[*from], roots)
        }
        NetKind::Unit { left, right } => word.with(4).reading(&[*left, *right], roots),
        NetKind::Counter { frame } => word.with(5).framed(*frame),
    }
}
