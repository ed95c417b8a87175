//! Programs as they are printed, and what their texts are read as.

use crate::placed_programs::{OWN_HOSTS, hosts_of, resolved};
use jif_parse::program_text;
use principals::Principals;
use std::alloc::Global;
use std::test::Fail;

/// A program in each line.
const PROGRAMS: &str = "\
    void main{}(){}\n\
    void main{}(){a=1;x[a]=-a;}int{Alice:Bob;?:Bob}a=-7;int{}x[03];int{Bob:}m{}(){return 1;}int{}b=-0;\n\
    void main{}() where authority(Bob,Alice){int x=0;int{?:Alice}y=x;x=y;if(x){int z=1;z=2;}else{int w=x;w=w;}\
    if(x){}while(y<1){if(1){}else{x=m(1,-y);}}n();}\
    int{} m{}(int{}p,int{Alice:}q){p=q;q=declassify(p,{})+endorse(1,{?:Bob});return p;} \
    void n{?:Alice}(){n();}\n\
    int{}a;void main{}(){a=(a-1)-(a-2);a=((a-1)-a)-2;a=- -1;a=- 1;a=-(a);a=-(a+1);a=!(!a)*(a);a=!a==(a<1)==1;\
    a=(a==1)<1;a=a||(a||a)||a&&(a||1);a=a*(a/2)%3-(4*5);a=((((1))));a=a- -1;a=9223372036854775807;}\n";

/// What they are printed as, with an empty line behind each.
const PRINTED: &str = "void main{}() {\n}\n\n\
    int{Alice: Alice, Bob; ?: Bob} a = -7;\nint{} x[3];\nint{} b;\nvoid main{}() {\na = 1;\nx[a] = -a;\n}\n\
    int{Bob: Bob} m{}() {\nreturn 1;\n}\n\n\
    void main{}() where authority(Bob, Alice) {\nint x = 0;\nint{?: Alice} y = x;\nx = y;\n\
    if (x) {\nint z = 1;\nz = 2;\n} else {\nint w = x;\nw = w;\n}\nif (x) {\n}\n\
    while (y < 1) {\nif (1) {\n} else {\nx = m(1, -y);\n}\n}\nn();\n}\n\
    int{} m{}(int{} p, int{Alice: Alice} q) {\np = q;\nq = declassify(p, {}) + endorse(1, {?: Bob});\n\
    return p;\n}\n\
    void n{?: Alice}() {\nn();\n}\n\n\
    int{} a;\nvoid main{}() {\na = a - 1 - (a - 2);\na = a - 1 - a - 2;\na = --1;\na = -1;\na = -a;\n\
    a = -(a + 1);\n\
    a = !!a * a;\na = !a == a < 1 == 1;\na = (a == 1) < 1;\na = a || (a || a) || a && (a || 1);\n\
    a = a * (a / 2) % 3 - 4 * 5;\na = 1;\na = a - -1;\na = 9223372036854775807;\n}\n\n";

/// The printed form of the program that a text is.
fn printed(alloc: Global, principals: &Principals, text: &str) -> Result<String, Fail> {
    let program = resolved(alloc, text, principals)?;
    Ok(program_text(alloc, &program, principals)?)
}

/// A printed program is read as the same program.
#[test]
fn programs_are_printed(rt: HostRuntime) -> Result<(), Fail> {
    let alloc = rt.alloc();
    let hosts = hosts_of(alloc, OWN_HOSTS)?;
    let mut all = String::new(alloc);
    for text in PROGRAMS.lines() {
        let once = printed(alloc, hosts.principals(), text)?;
        let twice = printed(alloc, hosts.principals(), once.as_str())?;
        assert_eq!(rt; twice.as_str(), once.as_str(), "in {text}");
        all.push_str(once.as_str())?;
        all.push_str("\n")?;
    }
    assert_eq!(rt; all.as_str(), PRINTED);
    Ok(())
}
