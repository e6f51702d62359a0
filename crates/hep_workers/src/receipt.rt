//! Receipts of a worker's turns, and its log.
ghost use Rattle.std.specs.Prelude.{◌≡◌, ◌++◌, ◌∷◌, [], OnErr, OnOk};
ghost use Rattle.hep_workers.specs.Turns.{are_of};

use std::alloc::{AllocError, Global};
use std::marker::Model;

/// A turn of a worker, with the entry of the history that it added.
#[derive(Clone, Copy, Debug, PartialEq, Eq)]
pub struct Receipt {
    /// The index of the entry, counted from 0.
    pub index: u64,
    pub process: u64,
    /// The number of the worker, counted from 1.
    pub worker: u32,
    pub steps: u32,
}

/// The receipts of a worker, in the order of its turns.
#[derive(Drop)]
pub struct Log {
    receipts: Vec<Receipt>,
}

impl Model for Log {
    ghost use Rattle.std.specs.Prelude.{List};
    ghost use Rattle.hep_workers.specs.declared.receipt.Receipt.{Receipt as PureReceipt};

    ghost Value = { List PureReceipt };

    ghost view = { λ log. log.receipts.items };
}

impl Log {
    /// An empty log. This takes no memory.
    pub fn new(alloc: Global) -> Log
        ensures { result ≡ [] }
    {
        Log {
            receipts: Vec::new(alloc),
        }
    }

    /// The log of these receipts.
    pub fn of(receipts: Vec<Receipt>) -> Log
        ensures { result ≡ receipts.items }
    {
        Log { receipts }
    }

    /// Makes room for one more receipt.
    ///
    /// # Errors
    ///
    /// `AllocError` where memory was refused; nothing has changed then.
    pub fn reserve(&mut self) -> Result<(), AllocError>
        ensures { self.new ≡ self.old }
    {
        self.receipts.reserve(1)
    }

    /// Appends a receipt.
    ///
    /// # Errors
    ///
    /// `AllocError` where memory was refused; nothing has changed then.
    pub fn push(&mut self, receipt: Receipt) -> Result<(), AllocError>
        ensures pushed { OnOk result (self.new ≡ self.old ++ receipt ∷ []) }
        ensures refused { OnErr result (self.new ≡ self.old) }
    {
        self.receipts.push(receipt)?;
        Ok(())
    }

    /// Whether all receipts are of this worker.
    pub fn is_of(&self, worker: u32) -> bool
        ensures { result ≡ are_of worker self.now }
    {
        self.receipts.iter().all(|receipt| receipt.worker == worker)
    }

    /// The receipts.
    pub fn receipts(&self) -> &[Receipt]
        ensures { result.now ≡ self.now }
    {
        &self.receipts
    }
}
