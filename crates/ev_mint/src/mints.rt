//! Mints, their purses, and the money in them.

ghost use Rattle.std.specs.Prelude.{ℕ, ◌≡◌, ◌≢◌, ◌∷◌, ◌++◌, [], ◌+◌, ◌<◌, ◌≤◌, length, IfErr, IfOk, OnErr, OnOk};
ghost use Rattle.ev_mint.specs.Money.{IsDepositFault, IsIssueFault, MayDeposit, balance_of, balances, deposited, issued, minted, mint_of, most, no_money, purse_at, put_in, sprouted, taken_out, total_of, with_balance, with_total};

use ev_base::Memory;
use std::alloc::Global;
use std::marker::Model;

/// The most money that a mint issues.
const MOST: u64 = 1_000_000_000_000_000_000;

/// A purse: its mint, and the money in it.
#[derive(Clone, Copy, PartialEq, Eq)]
pub struct Purse {
    pub mint: u64,
    pub balance: u64,
}

/// Why nothing was done.
#[derive(Clone, Copy, PartialEq, Eq)]
pub enum MintFault {
    /// The mint, which issued so much, would issue too much.
    TooMuch(u64),
    /// The purses are of different mints.
    OtherMint,
    /// The purse has only so much.
    Short(u64),
    Memory,
}

impl From<Memory> for MintFault {
    ghost use Rattle.std.specs.Prelude.{◌≡◌};
    ghost use Rattle.ev_mint.specs.declared.mints.MintFault.TheVariants.{Memory as NoMemory};

    ghost from_gives = { λ _ e. e ≡ NoMemory };

    fn from(_error: Memory) -> MintFault {
        MintFault::Memory
    }
}

/// Mints and purses, each numbered from 0 in the order of making.
#[derive(Drop)]
pub struct Mints {
    /// How much each mint issued.
    totals: Vec<u64>,
    purses: Vec<Purse>,
}

impl Model for Mints {
    ghost use Rattle.ev_mint.specs.Money.{Money, IsSound};

    ghost Value = { Money };

    ghost view = { λ m. record { totals = m.totals.items; purses = m.purses.items } };

    // the balances of a mint's purses add up to what it issued
    ghost invariant = { λ m. IsSound m.totals.items m.purses.items };
}

/// Puts so much money into a purse.
fn set_balance(purses: &mut Vec<Purse>, place: usize, balance: u64)
    requires { place < length purses.now.items }
    ensures { purses.new.items ≡ with_balance place balance purses.old.items }
{
    let mint = purses[place].mint;
    purses[place] = Purse { mint, balance };
}

/// The purse at a place.
fn purse_in(purses: &Vec<Purse>, place: usize) -> Purse
    requires { place < length purses.now.items }
    ensures { result ≡ purse_at place purses.now.items }
{
    purses[place]
}

/// Takes money out of a purse.
fn take_out(purses: &mut Vec<Purse>, place: usize, amount: u64)
    requires place { place < length purses.now.items }
    requires amount { amount ≤ balance_of place purses.now.items }
    ensures { purses.new.items ≡ taken_out place amount purses.old.items }
{
    let held = purse_in(purses, place).balance;
    set_balance(purses, place, held - amount);
}

/// Puts money into a purse.
fn put_in(purses: &mut Vec<Purse>, place: usize, amount: u64)
    requires place { place < length purses.now.items }
    requires room { balance_of place purses.now.items + amount ≤ most }
    ensures { purses.new.items ≡ put_in place amount purses.old.items }
{
    let held = purse_in(purses, place).balance;
    set_balance(purses, place, held + amount);
}

/// How much a mint issued.
fn total_in(totals: &Vec<u64>, mint: usize) -> u64
    requires { mint < length totals.now.items }
    ensures { result ≡ total_of mint totals.now.items }
{
    totals[mint]
}

/// Puts down how much a mint issued.
fn set_total(totals: &mut Vec<u64>, mint: usize, total: u64)
    requires { mint < length totals.now.items }
    ensures { totals.new.items ≡ with_total mint total totals.old.items }
{
    totals[mint] = total;
}

/// Adds a purse behind the others. A refusal changes nothing.
fn add_purse(purses: &mut Vec<Purse>, mint: u64, balance: u64) -> Result<(), Memory>
    ensures ok { OnOk result (purses.new.items ≡ purses.old.items ++ record { mint = mint; balance = balance } ∷ []) }
    ensures err { OnErr result (purses.new.items ≡ purses.old.items) }
{
    purses.push(Purse { mint, balance })?;
    Ok(())
}

impl Mints {
    /// No mints and no purses. It takes no memory.
    pub fn new(alloc: Global) -> Mints
        ensures { result ≡ no_money }
    {
        Mints {
            totals: Vec::new(alloc),
            purses: Vec::new(alloc),
        }
    }

    /// How many mints were made. It takes no memory.
    pub fn mints(&self) -> u64
        ensures { result ≡ length self.now.totals }
    {
        self.totals.len() as u64
    }

    /// How many purses were made. It takes no memory.
    pub fn purses(&self) -> u64
        ensures { result ≡ length self.now.purses }
    {
        self.purses.len() as u64
    }

    /// The balances of each mint's purses add up to what it issued, whatever was done.
    pub fn balances_add_up(&self)
        ensures { (mint : ℕ) → balances mint self.now.purses ≡ total_of mint self.now.totals }
    {
        let _mints = self.totals.len();
    }

    /// The money in a purse. It takes no memory.
    pub fn balance(&self, purse: u64) -> u64
        requires { purse < length self.now.purses }
        ensures { result ≡ balance_of purse self.now.purses }
    {
        purse_in(&self.purses, purse as usize).balance
    }

    /// Makes a mint, and gives its number. A refusal changes nothing.
    #[tactic(auto, using(crate::proofs::Sound::sound_minted))]
    pub fn mint(&mut self) -> Result<u64, Memory>
        ensures number { IfOk result (λ number. number ≡ length self.old.totals) }
        ensures ok { OnOk result (self.new ≡ minted self.old) }
        ensures err { OnErr result (self.new ≡ self.old) }
    {
        let number = self.totals.len() as u64;
        self.totals.push(0)?;
        Ok(number)
    }

    /// Issues money into a new purse, and gives its number. A refusal changes nothing.
    #[tactic(auto, using(crate::proofs::Sound::sound_after))]
    pub fn issue(&mut self, mint: u64, amount: u64) -> Result<u64, MintFault>
        requires { mint < length self.now.totals }
        ensures number { IfOk result (λ number. (total_of mint self.old.totals + amount ≤ most) × (number ≡ length self.old.purses)) }
        ensures ok { OnOk result (self.new ≡ issued mint amount self.old) }
        ensures fault { IfErr result (λ e. IsIssueFault (total_of mint self.old.totals) amount e) }
        ensures err { OnErr result (self.new ≡ self.old) }
    {
        let total = total_in(&self.totals, mint as usize);
        let room = MOST - total;
        if amount > room {
            return Err(MintFault::TooMuch(total));
        }
        let number = self.purses.len() as u64;
        add_purse(&mut self.purses, mint, amount)?;
        set_total(&mut self.totals, mint as usize, total + amount);
        Ok(number)
    }

    /// Makes an empty purse of the mint of another one, and gives its number. A refusal changes nothing.
    #[tactic(auto, using(crate::proofs::Sound::sound_sprouted))]
    pub fn sprout(&mut self, purse: u64) -> Result<u64, Memory>
        requires { purse < length self.now.purses }
        ensures number { IfOk result (λ number. number ≡ length self.old.purses) }
        ensures ok { OnOk result (self.new ≡ sprouted purse self.old) }
        ensures err { OnErr result (self.new ≡ self.old) }
    {
        let number = self.purses.len() as u64;
        let mint = purse_in(&self.purses, purse as usize).mint;
        add_purse(&mut self.purses, mint, 0)?;
        Ok(number)
    }

    /// Moves money out of one purse into another. It takes no memory, and a refusal changes nothing.
    #[tactic(auto, using(crate::proofs::Sound::sound_deposited, crate::proofs::Sound::fits_after, crate::proofs::Sound::kept_length))]
    pub fn deposit(&mut self, into: u64, from: u64, amount: u64) -> Result<(), MintFault>
        requires into { into < length self.now.purses }
        requires from { from < length self.now.purses }
        ensures ok { OnOk result (MayDeposit into from amount self.old.purses × (self.new ≡ deposited into from amount self.old)) }
        ensures fault { IfErr result (λ e. IsDepositFault into from amount self.old.purses e) }
        ensures err { OnErr result (self.new ≡ self.old) }
    {
        let (into, from) = (into as usize, from as usize);
        if purse_in(&self.purses, into).mint != purse_in(&self.purses, from).mint {
            return Err(MintFault::OtherMint);
        }
        let had = purse_in(&self.purses, from).balance;
        if had < amount {
            return Err(MintFault::Short(had));
        }
        take_out(&mut self.purses, from, amount);
        put_in(&mut self.purses, into, amount);
        Ok(())
    }
}
