//! Numbers of nets by frame.
ghost use Rattle.std.specs.Prelude.{◌≡◌, [], OnOk, OnErr, Option, None, Some, if◌then◌else◌};
ghost use Rattle.hw_net.specs.ByFrame.{is_same_frame, number_at_frame};
ghost use Rattle.hw_net.specs.declared.netlist.Frame.{Frame};

use crate::netlist::Frame;
use fx_io::OutOfMemory;
use std::alloc::Global;
use std::collections::BTreeMap;
use std::marker::Model;

/// A number of a net for each of some frames (own), by one look-up. Contracts see the entries.
#[derive(Drop)]
pub struct FrameIndex {
    by_frame: BTreeMap<Frame, u32>,
}

impl Model for FrameIndex {
    ghost use Rattle.std.specs.Prelude.{ℕ, List};
    ghost use Rattle.hw_net.specs.declared.netlist.Frame.{Frame};

    ghost Value = { List (Frame × ℕ) };

    ghost view = { λ index. index.by_frame.entries };
}

impl FrameIndex {
    /// An index without a frame. It takes no memory.
    pub fn new(alloc: Global) -> FrameIndex
        ensures { result ≡ [] }
    {
        FrameIndex {
            by_frame: BTreeMap::new(alloc),
        }
    }

    /// The number of a frame, if it has one.
    pub fn find(&self, frame: Frame) -> Option<u32>
        ensures { result ≡ number_at_frame self.now frame }
    {
        self.by_frame.get(&frame).copied()
    }

    /// Gives a frame its number, in place of any that it had. Where memory is wanting the index
    /// stays.
    pub fn put(&mut self, frame: Frame, number: u32) -> Result<(), OutOfMemory>
        ensures found { OnOk result ((other : Frame)
            → number_at_frame self.new other
            ≡ (if is_same_frame frame other then Some number else number_at_frame self.old other)) }
        ensures kept { OnErr result (self.new ≡ self.old) }
    {
        let _ = self.by_frame.insert(frame, number)?;
        Ok(())
    }

    /// Takes out a frame. It takes no memory.
    pub fn remove(&mut self, frame: Frame)
        ensures { (other : Frame) → number_at_frame self.new other
            ≡ (if is_same_frame frame other then None else number_at_frame self.old other) }
    {
        let _ = self.by_frame.remove(&frame);
    }
}
