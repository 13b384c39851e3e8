use hourfile::settle;
use std::process::Abort;
use std::test::Fail;

// The first lines of the worked hour, up to its orders.
const TRADED: &[u8] = b"hour=2024040107
asset=1,G,1
asset=2,G,2
asset=3,L,3
asset=4,L,4
offer=1,100:2000
offer=2,50:3000,50:9000
order=1,0,100
order=2,0,50
order=2,30,80
";

// A file settles to exactly this print, and the text behind it stays.
fn prints(rt: &impl Abort, file: &[u8], print: &[u8]) -> Result<(), Fail> {
    let mut text = [b'?'; 100];
    match settle(file, &mut text) {
        Ok(count) if count < 100 => {
            assert!(rt; &text[0..count] == print);
            assert!(rt; text[count] == b'?');
            Ok(())
        }
        _ => Err(Fail::new("no room")),
    }
}

// Each file of a table settles to the print beside it.
fn all_print(rt: &impl Abort, table: &[(&[u8], &[u8])]) -> Result<(), Fail> {
    for (file, print) in table {
        prints(rt, file, print)?;
    }
    Ok(())
}

#[test]
fn ill_formed_files_name_their_place(rt: HostRuntime) -> Result<(), Fail> {
    all_print(
        &rt,
        &[
            (b"", b"fault=1,F,19,1\n"),
            (b"hou", b"fault=1,F,19,1\n"),
            (b"hour=", b"fault=1,F,19,6\n"),
            (b"hour=12", b"fault=1,F,19,8\n"),
            (b"hour=01", b"fault=1,F,19,7\n"),
            (b"hour=4294967296\n", b"fault=1,F,19,15\n"),
            (b"hour=12345678901\n", b"fault=1,F,19,16\n"),
            (b"hour=7\n", b"fault=2,F,19,1\n"),
            (b"hour=7\nhour=7\n", b"fault=2,F,19,1\n"),
            (b"hour=7\nasset=1,GG,1\n", b"fault=2,F,19,10\n"),
            (b"hour=7\nasset=1,g,1\n", b"fault=2,F,19,9\n"),
            (b"hour=7\noffer=1\n", b"fault=2,F,19,8\n"),
            (b"hour=7\noffer=1,50:3000,\n", b"fault=2,F,19,17\n"),
            (
                b"hour=7\noffer=1,1:1,1:2,1:3,1:4,1:5,1:6,1:7,1:8\n",
                b"fault=2,F,19,36\n",
            ),
            (b"hour=7\nmeter=1,100,5\n", b"fault=2,F,19,12\n"),
            (b"hour=7\nrule=rubbing\n", b"fault=2,F,19,8\n"),
            (b"hour=7\nrule=running", b"fault=2,F,19,13\n"),
            (b"hour=7\nrule=running\n\n", b"fault=3,F,19,1\n"),
            (b"hour=7\nshed=0,1\norder=1,0,0\n", b"fault=3,F,19,1\n"),
        ],
    )
}

#[test]
fn refused_calls_name_their_line(rt: HostRuntime) -> Result<(), Fail> {
    all_print(
        &rt,
        &[
            (b"hour=7\nasset=1,Q,1\nrule=\n", b"fault=2,H,3,81\n"),
            (b"hour=7\nasset=1,G,1\nasset=1,G,1\n", b"fault=3,H,4,1\n"),
            (b"hour=7\norder=9,75,5\n", b"fault=2,H,5,9\n"),
            (b"hour=7\norder=9,75,5x\n", b"fault=2,F,19,13\n"),
            (b"hour=7\nasset=1,G,1\noffer=1,0:1\n", b"fault=3,H,7,1\n"),
            (b"hour=7\nshed=5,5\n", b"fault=2,H,8,5\n"),
            (b"hour=7\nasset=1,G,1\norder=1,0,0\n", b"fault=3,H,9,1\n"),
            (
                b"hour=7\nasset=1,G,1\nmeter=1,1000001\n",
                b"fault=3,H,10,1\n",
            ),
            (
                b"hour=7\nasset=1,G,1\ninstruct=5,1,1,1\n",
                b"fault=3,H,11,5\n",
            ),
            (
                b"hour=7\nasset=1,G,1\nasset=2,L,1\ninstruct=5,1,2,1\ninstruct=5,1,2,1\n",
                b"fault=5,H,12,5\n",
            ),
            (b"hour=7\nasset=1,G,1\nrule=largest\n", b"fault=0,H,15,1\n"),
            (TRADED, b"fault=11,F,19,1\n"),
        ],
    )
}

#[test]
fn files_settle(rt: HostRuntime) -> Result<(), Fail> {
    all_print(
        &rt,
        &[
            (b"hour=7\nrule=running\n", b"hour=7\nprice=0\nsum=0\n"),
            (
                b"hour=4294967295\nasset=64,X,32\nshed=0,60\nmeter=64,1\nrule=largest\n",
                b"hour=4294967295\nprice=100000\nline=32,-100000,0,0,0,0,-100000\nsum=-100000\n",
            ),
        ],
    )
}

#[test]
fn short_text_is_refused(rt: HostRuntime) -> Result<(), Fail> {
    let mut text = [b'?'; 20];
    match settle(b"hour=7\nrule=running\n", &mut text) {
        Ok(_) => return Err(Fail::new("settled")),
        Err(fault) => {
            assert_eq!(rt; fault.layer(), 'F');
            assert_eq!(rt; fault.row(), 14);
            assert_eq!(rt; fault.subject(), 21);
        }
    }
    assert!(rt; text == [b'?'; 20]);
    Ok(())
}
