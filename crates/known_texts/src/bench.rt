//! What a case has: a disk in memory or the node that has it, and a node in memory beside it.
use crate::cuts::{cut_in_memory, cut_of};
use crate::disk_calls::{call_disk, is_change, is_disk_call};
use crate::image_calls::{call_images, is_image_call};
use crate::openings::name_text;
use crate::shown::written;
use anyhow::bail;
use base_disk::{Choice, MemDisk, UntoldDisk};
use case_files::{CaseLine, are_alike, ask, choice_of, number_and_rest, told_by, word_and_rest};
use disk_node::{JournalNode, OpenFail};
use journal_core::Node;
use journal_step::PlainNode;
use std::alloc::{AllocError, Global};
use std::mem;

/// A disk, or the node that has it, and a node in memory.
#[derive(Drop)]
pub struct Bench {
    pub alloc: Global,
    /// Without files while a node has the disk.
    pub disk: UntoldDisk,
    pub node: Option<JournalNode<MemDisk>>,
    pub plain: PlainNode,
    /// Whether both nodes were told the same.
    pub is_paired: bool,
}

fn empty_disk(alloc: Global) -> UntoldDisk {
    UntoldDisk::new(MemDisk::new(alloc))
}

// Numbers with spaces between them.
fn numbers_of(alloc: Global, text: &str) -> anyhow::Result<Vec<u64>> {
    let mut numbers = Vec::new(alloc);
    for number in text.split(' ') {
        numbers.push(number.parse()?)?;
    }
    Ok(numbers)
}

impl Bench {
    /// A disk of no files and a fresh node in memory.
    pub fn new(alloc: Global) -> Bench {
        Bench {
            alloc,
            disk: empty_disk(alloc),
            node: None,
            plain: PlainNode::new(alloc),
            is_paired: true,
        }
    }

    /// Begins anew.
    pub fn renew(&mut self) {
        let fresh = Bench::new(self.alloc);
        drop(mem::replace(self, fresh));
    }

    /// Begins anew and takes these steps. Those that change nothing are passed over.
    pub fn replay(&mut self, steps: &[CaseLine]) -> anyhow::Result<()> {
        self.renew();
        let mut told = String::new(self.alloc);
        for step in steps {
            let _ = self.change(&step.text, &mut told)?;
        }
        Ok(())
    }

    /// Takes a step that changes something, and tells what it came to. False says that it is none.
    pub fn change(&mut self, step: &str, told: &mut String) -> anyhow::Result<bool> {
        let (word, rest) = word_and_rest(step);
        if is_disk_call(word) || is_image_call(word) {
            self.call(word, rest, told)?;
            return Ok(true);
        }
        let taken = match word {
            "open" => self.open(told),
            "ask" | "stop" | "kill" | "restart" => self.tell_both(word, rest, told),
            "cut" => self.cut(rest, told),
            "fail" => self.fail(rest, told),
            "crash" => self.crash(choice_of(rest), told),
            "close" => self.close(told),
            _ => return Ok(false),
        };
        taken?;
        Ok(true)
    }

    // A call of the disk that no node has.
    fn call(&mut self, word: &str, rest: &str, told: &mut String) -> anyhow::Result<()> {
        if self.node.is_some() {
            bail!("a node has the disk");
        }
        if is_change(word) {
            self.is_paired = false;
        }
        if is_image_call(word) {
            call_images(self.alloc, &mut self.disk, word, rest, told)
        } else {
            call_disk(self.alloc, &mut self.disk, word, rest, told)
        }
    }

    /// Both nodes take the step. What the node in memory tells is told where it differs.
    pub fn tell_both(&mut self, word: &str, rest: &str, told: &mut String) -> anyhow::Result<()> {
        let Some(node) = &mut self.node else {
            bail!("no node is open");
        };
        let seen = told_by(self.alloc, node, word, rest)?;
        told.push_str(&seen)?;
        if self.is_paired {
            let due = told_by(self.alloc, &mut self.plain, word, rest)?;
            if due != seen {
                write!(told, ", but in memory {due}")?;
            }
        }
        Ok(())
    }

    /// Whether both nodes answer all questions alike. How they don't is told.
    pub fn is_alike(&mut self, told: &mut String) -> anyhow::Result<bool> {
        match &mut self.node {
            Some(node) => are_alike(self.alloc, node, &mut self.plain, told),
            None => bail!("no node is open"),
        }
    }

    fn put_disk(&mut self, disk: MemDisk) {
        drop(mem::replace(&mut self.disk, UntoldDisk::new(disk)));
    }

    /// A node is opened on the disk, and the node in memory comes up.
    pub fn open(&mut self, told: &mut String) -> anyhow::Result<()> {
        let disk = mem::replace(&mut self.disk, empty_disk(self.alloc));
        let _ = self.plain.restart(self.alloc);
        written(match JournalNode::open(self.alloc, disk.disk) {
            Ok(node) => {
                drop(self.node.replace(node));
                told.push_str("opened")
            }
            Err(OpenFail::DiskFault { disk }) => {
                self.put_disk(disk);
                told.push_str("disk fault")
            }
            Err(OpenFail::BadFile { disk, name }) => {
                self.put_disk(disk);
                name_text(&name, told)
            }
            Err(OpenFail::OutOfMemory { disk }) => {
                self.put_disk(disk);
                Err(AllocError)
            }
        })
    }

    // The node gives its disk back, and the node in memory goes down.
    fn let_go(&mut self) {
        let _ = self.plain.kill();
        if let Some(node) = self.node.take() {
            self.put_disk(node.into_disk());
        }
    }

    fn close(&mut self, told: &mut String) -> anyhow::Result<()> {
        self.let_go();
        told.push_str("closed")?;
        Ok(())
    }

    /// The node is closed, and its disk crashes.
    pub fn crash_by(&mut self, choice: Choice) {
        self.let_go();
        self.disk.disk.crash(choice);
    }

    fn crash(&mut self, choice: anyhow::Result<Choice>, told: &mut String) -> anyhow::Result<()> {
        self.crash_by(choice?);
        told.push_str("crashed")?;
        Ok(())
    }

    /// The disk makes so many calls more.
    pub fn stop_after(&mut self, calls: u64) {
        match &mut self.node {
            Some(node) => node.stop_after(calls),
            None => self.disk.disk.stop_after(calls),
        }
    }

    /// The calls of these numbers fail.
    pub fn fail_at(&mut self, calls: Vec<u64>) {
        match &mut self.node {
            Some(node) => node.fail_at(calls),
            None => self.disk.disk.fail_at(calls),
        }
    }

    // `at N ..` or `after N`: calls of the disk fail. The node in memory is left alone from now on.
    fn fail(&mut self, rest: &str, told: &mut String) -> anyhow::Result<()> {
        self.is_paired = false;
        told.push_str("set")?;
        if let Some(calls) = rest.strip_prefix("after ") {
            self.stop_after(calls.parse()?);
            return Ok(());
        }
        let calls = numbers_of(self.alloc, rest.strip_prefix("at ").unwrap_or(""))?;
        self.fail_at(calls);
        Ok(())
    }

    // `CALLS CHOICE LINE`: the nodes are cut in a request after so many disk calls, and come up.
    fn cut(&mut self, rest: &str, told: &mut String) -> anyhow::Result<()> {
        let (calls, rest) = number_and_rest(rest)?;
        let (choice, line) = word_and_rest(rest);
        let choice = choice_of(choice)?;
        if self.is_paired {
            self.cut_plain(calls, choice, line, told)?;
        }
        self.cut_disk(calls, choice, line, told)
    }

    /// The node in memory is cut. How many effects stand is told.
    pub fn cut_plain(
        &mut self,
        calls: u64,
        choice: Choice,
        line: &str,
        told: &mut String,
    ) -> anyhow::Result<()> {
        let effects = cut_in_memory(self.alloc, &mut self.plain, calls, cut_of(choice)?, line)?;
        write!(told, "effects {effects}, ")?;
        Ok(())
    }

    /// The node over the disk is asked, its disk does so many calls and crashes, and is opened
    /// again.
    pub fn cut_disk(
        &mut self,
        calls: u64,
        choice: Choice,
        line: &str,
        told: &mut String,
    ) -> anyhow::Result<()> {
        let Some(node) = &mut self.node else {
            bail!("no node is open");
        };
        node.stop_after(calls);
        let _reply = ask(self.alloc, node, line)?;
        self.crash_by(choice);
        self.open(told)
    }
}
