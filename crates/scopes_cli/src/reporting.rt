// Follows each file from its bytes to its rows, and what is asked of it from there.
use crate::columns::Columns;
use crate::inspection::inspect;
use crate::options::{HELP, Layout, Order, OrderError, Task, order_of};
use crate::page::{Page, PageError, page_of};
use crate::plain::Plain;
use crate::printer::Printer;
use hir_faults::{Envelope, Fault};
use hir_record::{RecordSource, open};
use std::io::Read;
use std::{fs, io};

// Does what the words after the program's name ask for. Answers whether it could be done for every
// file: a bool, since a caller makes an exit status or a line of it, and no more.
pub fn report(rt: &HostRuntime, words: &[String]) -> io::Result<bool> {
    match order_of(rt.alloc(), words) {
        Ok(Order::Help) => {
            rt.print(HELP)?;
            Ok(true)
        }
        Ok(
            Order::Run {
                task,
                layout,
                files,
            },
        ) => run(rt, task, layout, files.as_slice()),
        Err(OrderError::Memory(e)) => Err(e.into()),
        Err(why) => {
            eprintln!(rt; "scopes: {why}; --help tells how to call it")?;
            Ok(false)
        }
    }
}

fn run(rt: &HostRuntime, task: Task, layout: Layout, files: &[String]) -> io::Result<bool> {
    // Matched once, since the command line gives a value; a closure for each layout would be no plainer.
    match layout {
        Layout::Columns => Reporter::new(rt, task, Columns { rt }).files(files),
        Layout::Plain => Reporter::new(rt, task, Plain { rt }).files(files),
    }
}

// What is done with each file. Its methods answer whether it could be done.
#[derive(Clone, Copy)]
struct Reporter<'a, P> {
    rt: &'a HostRuntime,
    task: Task,
    printer: P,
}

impl<'a, P: Printer> Reporter<'a, P> {
    fn new(rt: &'a HostRuntime, task: Task, printer: P) -> Reporter<'a, P> {
        Reporter { rt, task, printer }
    }

    fn files(&self, names: &[String]) -> io::Result<bool> {
        let mut all = true;
        for name in names {
            all &= self.file(name.as_str())?;
        }
        Ok(all)
    }

    fn file(&self, name: &str) -> io::Result<bool> {
        match bytes_of(self.rt, name) {
            Ok(bytes) => self.record(name, bytes.as_slice()),
            Err(e) => {
                eprintln!(self.rt; "{name}: cannot be read: {e}")?;
                Ok(false)
            }
        }
    }

    fn record(&self, name: &str, bytes: &[u8]) -> io::Result<bool> {
        self.printer.begin(name)?;
        match page_of(self.rt.alloc(), bytes) {
            Ok(page) => self.page(name, &open(bytes), &page),
            Err(PageError::Refused(e)) => self.refusal(name, e),
            Err(PageError::NoMemory) => {
                eprintln!(self.rt; "{name}: there is not enough memory")?;
                Ok(false)
            }
        }
    }

    fn page(&self, name: &str, source: &RecordSource, page: &Page) -> io::Result<bool> {
        // Matched once; as closures the two tasks would each take all that stands here.
        match self.task {
            Task::Show => self.printer.page(name, source, page)?,
            Task::Inspect => match inspect(source, page) {
                Ok(numbers) => self.printer.sound(name, numbers)?,
                Err(e) => return self.refusal(name, e),
            },
        }
        Ok(true)
    }

    fn refusal(&self, name: &str, e: Envelope<Fault>) -> io::Result<bool> {
        self.printer.refusal(name, e)?;
        Ok(false)
    }
}

fn bytes_of(rt: &HostRuntime, name: &str) -> io::Result<Vec<u8>> {
    if name == "-" {
        let mut bytes = Vec::new(rt.alloc());
        rt.stdin().read_to_end(&mut bytes)?;
        return Ok(bytes);
    }
    fs::read(rt, name)
}
