//! Hosts by name and by address, read from lines of standard input, a name and an address each. It relies on this
//! promise: a line is refused exactly if a host has its name or its address. Then nothing has changed, and the hosts
//! that it meets are shown, one or two. A lookup by either finds the host of the line.
#![tactic(auto)]

ghost use Rattle.std.specs.Prelude.{◌≡◌, List, option_copied};
ghost use Rattle.iddqd_bi_hash.specs.BiHashItems.{IsKeyedByTexts};
ghost use Rattle.example_hosts.specs.Hosts.{host_of_address, host_of_name};
ghost use Rattle.example_hosts.specs.declared.Host.{Host};

use iddqd_bi_hash::{BiHashItem, BiHashMap, DuplicateItem, InsertError, Text};
use std::alloc::{AllocError, Global};
use std::io::{self, Read, Write};
use std::marker::Model;
use std::process::ExitCode;

/// A host, and the number of the line that it comes from.
#[derive(Debug, Drop)]
struct Host {
    name: String,
    address: String,
    line: u32,
}

impl BiHashItem for Host {
    type K1 = String;

    type K2 = String;

    ghost key1 = { λ host. host.name };

    ghost key2 = { λ host. host.address };

    fn key1(&self) -> &String {
        &self.name
    }

    fn key2(&self) -> &String {
        &self.address
    }
}

// The host of a line, or `None` if the line is of another form.
fn host_of(alloc: Global, line: &str, number: u32) -> Result<Option<Host>, AllocError> {
    let Some((name, address)) = line.split_once(' ') else {
        return Ok(None);
    };
    Ok(Some(Host {
        name: name.to_string(alloc)?,
        address: address.to_string(alloc)?,
        line: number,
    }))
}

// Tells of each host that the new one meets, by which key.
fn tell(both: &DuplicateItem<Host, &Host>, out: &mut impl Write) -> io::Result<()> {
    let new = both.new_item();
    for there in both.duplicates().iter() {
        let key = match (there.name == new.name, there.address == new.address) {
            (true, true) => "name and address",
            (true, false) => "name",
            _ => "address",
        };
        writeln!(
            out,
            "line {} has the {key} of line {}",
            new.line, there.line
        )?;
    }
    Ok(())
}

/// The hosts, seen as a list in which no two names are equal, and no two addresses.
#[derive(Drop)]
struct Hosts(BiHashMap<Host>);

impl Model for Hosts {
    ghost Value = { List Host };

    ghost view = { λ all. all.0.items };

    ghost invariant = { λ all. IsKeyedByTexts (λ host. host.name) (λ host. host.address) all.0 };
}

impl Hosts {
    // Inserts the host, or tells what it meets.
    fn add(&mut self, host: Host, out: &mut impl Write) -> io::Result<()> {
        match self.0.insert_unique(host) {
            Ok(()) => Ok(()),
            Err(InsertError::Duplicate(both)) => tell(&both, out),
            Err(InsertError::Refused(_refused)) => {
                Err(io::Error::from(io::ErrorKind::OutOfMemory))
            }
        }
    }

    // Returns the host of the name.
    fn of_name(&self, name: &str) -> Option<&Host>
        ensures { option_copied result ≡ host_of_name name.now self.now }
    {
        self.0.get1(&Text(name))
    }

    // Returns the host of the address.
    fn of_address(&self, address: &str) -> Option<&Host>
        ensures { option_copied result ≡ host_of_address address.now self.now }
    {
        self.0.get2(&Text(address))
    }
}

fn main(rt: HostRuntime) -> io::Result<()> {
    let alloc = rt.alloc();
    let out = &mut rt.stdout();
    let mut hosts = Hosts(BiHashMap::new(alloc));
    let mut number = 0u32;
    for line in rt.stdin().lines(alloc) {
        number = number.saturating_add(1);
        match host_of(alloc, line?.as_str(), number)? {
            Some(host) => hosts.add(host, out)?,
            None => writeln!(out, "line {number} is no host")?,
        }
    }
    let by_name = hosts.of_name("web");
    let by_address = hosts.of_address("10.0.0.2");
    writeln!(out, "{by_name:?} {by_address:?}")
}
